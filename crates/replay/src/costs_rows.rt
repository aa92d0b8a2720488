// The leaves on commission and slippage.
use crate::row::{Row, float, int, same_bool, same_int, shares};
use cost_model::CostModel;

// The Rust has no ceiling.
pub(crate) fn costs_of(commission_bps: u64, slippage_bps: u64, min_commission: u64) -> CostModel {
    CostModel {
        commission_bps: float(commission_bps),
        slippage_bps: float(slippage_bps),
        min_commission: int(min_commission),
        max_commission: 0,
    }
}

pub(crate) fn agrees(r: Row) -> bool {
    let leaf = r.leaf;
    let costs = costs_of(r.a, r.b, r.c);
    match leaf {
        41 => same_bool(costs.is_good(), r.answer),
        42 => same_int(costs.compute_cost(int(r.d)), r.answer),
        43 => same_int(costs.effective_price(shares(r.d), int(r.e)), r.answer),
        _ => false,
    }
}
