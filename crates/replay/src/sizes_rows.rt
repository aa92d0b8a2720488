// The leaves on what an order may be and what a buy needs.
use crate::costs_rows::costs_of;
use crate::row::{Row, int, same_float, same_int, shares};

fn affordable_agrees(r: Row) -> bool {
    let costs = costs_of(r.e, r.f, r.g);
    let most = sizing::largest_affordable_buy_qty(shares(r.a), int(r.b), int(r.c), int(r.d), costs);
    same_int(most.raw(), r.answer)
}

fn need_agrees(r: Row) -> bool {
    let costs = costs_of(r.c, r.d, r.e);
    same_int(
        sizing::buy_cash_required(shares(r.a), int(r.b), costs),
        r.answer,
    )
}

pub(crate) fn agrees(r: Row) -> bool {
    let leaf = r.leaf;
    let a = int(r.a);
    let b = int(r.b);
    let c = int(r.c);
    match leaf {
        61 => same_int(sizing::notional_of(shares(r.a), b), r.answer),
        62 => same_int(sizing::size_qty(a, b, c).raw(), r.answer),
        63 => same_int(
            sizing::truncate_qty_to_max_value(shares(r.a), b, c, int(r.d)).raw(),
            r.answer,
        ),
        64 => same_float(sizing::drift_bps_of(a, b), r.answer),
        65 => need_agrees(r),
        66 => affordable_agrees(r),
        _ => false,
    }
}
