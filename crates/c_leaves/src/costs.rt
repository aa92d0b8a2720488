// Commission and slippage: the two rates and the floor, one number each, and the ceiling where a leaf asks for one. Total as in the Rust,
// whatever the rates. A leaf without a ceiling has none: 0.
// Kept: a leaf with a ceiling beside one without, here and in sizes.rt, as C calls both names.
ghost use Rattle.std.specs.Prelude.{◌≡◌};
ghost use Rattle.position.specs.Shares.{is_positive};
ghost use Rattle.cost_model.specs.Costs.{model, with_ceiling, cost, effective, good_costs};

use cost_model::CostModel;
use position::Shares;

pub(crate) fn costs_of(
    commission_bps: f64,
    slippage_bps: f64,
    min_commission: i64,
    max_commission: i64,
) -> CostModel
    ensures { result ≡ with_ceiling max_commission (model commission_bps slippage_bps min_commission) }
{
    CostModel {
        commission_bps,
        slippage_bps,
        min_commission,
        max_commission,
    }
}

// Whether each part is in document 01's bounds.
#[unsafe(no_mangle)]
pub extern "C" fn tc_good_costs(commission_bps: f64, slippage_bps: f64, min_commission: i64) -> bool
    ensures { result ≡ good_costs (model commission_bps slippage_bps min_commission) }
{
    tc_good_costs_with_ceiling(commission_bps, slippage_bps, min_commission, 0)
}

// "1 also when a non-zero ceiling is below `min_commission`"
#[unsafe(no_mangle)]
pub extern "C" fn tc_good_costs_with_ceiling(
    commission_bps: f64,
    slippage_bps: f64,
    min_commission: i64,
    max_commission: i64,
) -> bool
    ensures { result ≡ good_costs (with_ceiling max_commission (model commission_bps slippage_bps min_commission)) }
{
    let costs = costs_of(commission_bps, slippage_bps, min_commission, max_commission);
    costs.is_good()
}

// "Commission is round(notional × bps / 10,000), multiplied first, and at least `min_commission`."
#[unsafe(no_mangle)]
pub extern "C" fn tc_compute_cost(
    commission_bps: f64,
    slippage_bps: f64,
    min_commission: i64,
    notional: i64,
) -> i64
    ensures { result ≡ cost (model commission_bps slippage_bps min_commission) notional }
{
    tc_compute_cost_with_ceiling(commission_bps, slippage_bps, min_commission, 0, notional)
}

// "the lesser of today's commission and the ceiling", "0 meaning none"
#[unsafe(no_mangle)]
pub extern "C" fn tc_compute_cost_with_ceiling(
    commission_bps: f64,
    slippage_bps: f64,
    min_commission: i64,
    max_commission: i64,
    notional: i64,
) -> i64
    ensures { result ≡ cost (with_ceiling max_commission (model commission_bps slippage_bps min_commission)) notional }
{
    let costs = costs_of(commission_bps, slippage_bps, min_commission, max_commission);
    costs.compute_cost(notional)
}

// "Effective price is round(price × (1 + sign × slippage / 10,000))": the sign is the quantity's.
#[unsafe(no_mangle)]
pub extern "C" fn tc_effective_price(
    commission_bps: f64,
    slippage_bps: f64,
    min_commission: i64,
    quantity: i64,
    price: i64,
) -> i64
    ensures { result ≡ effective (model commission_bps slippage_bps min_commission) (is_positive quantity) price }
{
    let costs = costs_of(commission_bps, slippage_bps, min_commission, 0);
    costs.effective_price(Shares::from_raw(quantity), price)
}
