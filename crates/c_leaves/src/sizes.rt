// What an order may be: its notional, size, truncation and drift, and the cash that it needs.
ghost use Rattle.std.specs.Prelude.{◌≡◌};
ghost use Rattle.sums.specs.Sums.{notional};
ghost use Rattle.cost_model.specs.Costs.{model, with_ceiling};
ghost use Rattle.sizing.specs.Sizing.{sized, cut_to, drift};
ghost use Rattle.sizing.specs.Afford.{need, affordable};

use crate::costs::costs_of;
use position::Shares;

#[unsafe(no_mangle)]
pub extern "C" fn tc_notional_of(quantity: i64, price: i64) -> i64
    ensures { result ≡ notional quantity price }
{
    sizing::notional_of(Shares::from_raw(quantity), price)
}

// "the gap becomes shares, truncated, snapped toward zero to the step, then clamped"
#[unsafe(no_mangle)]
pub extern "C" fn tc_size_qty(gap: i64, price: i64, step: i64) -> i64
    ensures { result ≡ sized gap price step }
{
    sizing::size_qty(gap, price, step).raw()
}

// "the quantity keeps its sign and becomes maximum × SCALE / price, truncated and snapped to the step"
#[unsafe(no_mangle)]
pub extern "C" fn tc_truncate_qty_to_max_value(
    quantity: i64,
    price: i64,
    step: i64,
    max_value: i64,
) -> i64
    ensures { result ≡ cut_to quantity price step max_value }
{
    sizing::truncate_qty_to_max_value(Shares::from_raw(quantity), price, step, max_value).raw()
}

// "Drift is (absolute value / equity) × 10,000, divided first."
#[unsafe(no_mangle)]
pub extern "C" fn tc_drift_bps_of(value: i64, equity: i64) -> f64
    ensures { result ≡ drift value equity }
{
    sizing::drift_bps_of(value, equity)
}

// "A buy's need is notional plus commission, saturating."
#[unsafe(no_mangle)]
pub extern "C" fn tc_buy_cash_required(
    quantity: i64,
    price: i64,
    commission_bps: f64,
    slippage_bps: f64,
    min_commission: i64,
) -> i64
    ensures { result ≡ need (model commission_bps slippage_bps min_commission) quantity price }
{
    tc_buy_cash_required_with_ceiling(
        quantity,
        price,
        commission_bps,
        slippage_bps,
        min_commission,
        0,
    )
}

// The same under a ceiling.
#[unsafe(no_mangle)]
pub extern "C" fn tc_buy_cash_required_with_ceiling(
    quantity: i64,
    price: i64,
    commission_bps: f64,
    slippage_bps: f64,
    min_commission: i64,
    max_commission: i64,
) -> i64
    ensures { result ≡ need (with_ceiling max_commission (model commission_bps slippage_bps min_commission)) quantity price }
{
    let costs = costs_of(commission_bps, slippage_bps, min_commission, max_commission);
    sizing::buy_cash_required(Shares::from_raw(quantity), price, costs)
}

// "the largest step multiple, not above the request, whose need fits cash (a zero fill needs 0); at cash 0 it is nothing"
#[unsafe(no_mangle)]
pub extern "C" fn tc_largest_affordable_buy_qty(
    requested: i64,
    cash: i64,
    step: i64,
    price: i64,
    commission_bps: f64,
    slippage_bps: f64,
    min_commission: i64,
) -> i64
    ensures { result ≡ affordable (model commission_bps slippage_bps min_commission) step cash requested price }
{
    tc_largest_affordable_buy_qty_with_ceiling(
        requested,
        cash,
        step,
        price,
        commission_bps,
        slippage_bps,
        min_commission,
        0,
    )
}

// The same under a ceiling.
#[unsafe(no_mangle)]
pub extern "C" fn tc_largest_affordable_buy_qty_with_ceiling(
    requested: i64,
    cash: i64,
    step: i64,
    price: i64,
    commission_bps: f64,
    slippage_bps: f64,
    min_commission: i64,
    max_commission: i64,
) -> i64
    ensures { result ≡ affordable (with_ceiling max_commission (model commission_bps slippage_bps min_commission)) step cash requested price }
{
    let costs = costs_of(commission_bps, slippage_bps, min_commission, max_commission);
    sizing::largest_affordable_buy_qty(Shares::from_raw(requested), cash, step, price, costs).raw()
}
