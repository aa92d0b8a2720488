// The orders that a rebalance wants.
ghost use Rattle.std.specs.Prelude.{◌≡◌};
ghost use Rattle.wanted.specs.Plan.{passed_over, allowed_order, gap_of, planned_close, planned_target};

use crate::limits::{limited, within_band};
use account::Settings;
use position::{Shares, Symbol};
use sizing::{drift_bps_of, size_qty};

// A candidate order, before the caps are applied. One of quantity 0 is no order.
// Kept: no order is no None, since `closings` and `targetings` list orders of quantity 0 too, and `added` passes over them.
#[derive(Clone, Copy)]
pub struct PlannedOrder {
    pub symbol: Symbol,
    pub quantity: Shares,
    pub price: i64,
    // Absolute drift from target in basis points of equity: the rank under a cap.
    pub drift_bps: f64,
}

fn passed_over(symbol: Symbol) -> PlannedOrder
    ensures { result ≡ passed_over symbol.0 }
{
    PlannedOrder {
        symbol,
        quantity: Shares::ZERO,
        price: 0,
        drift_bps: 0.0,
    }
}

// "For either kind": the band by its drift, then the limits.
fn allowed_order(
    s: Settings,
    symbol: Symbol,
    quantity: Shares,
    price: i64,
    drift_bps: f64,
) -> PlannedOrder
    ensures { result ≡ allowed_order s symbol.0 quantity.0 price drift_bps }
{
    if within_band(s, drift_bps) {
        PlannedOrder {
            price,
            drift_bps,
            ..passed_over(symbol)
        }
    } else {
        PlannedOrder {
            symbol,
            quantity: limited(s, quantity, price),
            price,
            drift_bps,
        }
    }
}

// "Priced open holdings absent from targets are closed [..] whole, without the step."
pub fn planned_close(
    s: Settings,
    equity: i64,
    symbol: Symbol,
    quantity: Shares,
    price: i64,
    wanted: bool,
) -> PlannedOrder
    ensures { result ≡ planned_close s equity symbol.0 quantity.0 price wanted }
{
    if wanted || price < 1 {
        return passed_over(symbol);
    }
    let drift = drift_bps_of(sums::value(quantity.raw(), price), equity);
    allowed_order(s, symbol, quantity.neg(), price, drift)
}

// "Target value is truncated equity × weight": how far the holding's value is below it.
fn gap_of(equity: i64, held: Shares, price: i64, weight: f64) -> i64
    ensures { result ≡ gap_of equity held.0 price weight }
{
    let target = doubles::to_i64(doubles::i64_to_f64(equity) * weight);
    sums::saturating_sub(target, sums::value(held.raw(), price))
}

// "the gap becomes shares"; "an unpriced one is passed over". Within the band the gap need not become shares, so the band is tested here before
// `allowed_order` tests it.
pub fn planned_target(
    s: Settings,
    equity: i64,
    symbol: Symbol,
    held: Shares,
    price: i64,
    weight: f64,
) -> PlannedOrder
    ensures { result ≡ planned_target s equity symbol.0 held.0 price weight }
{
    if price < 1 {
        return passed_over(symbol);
    }
    let gap = gap_of(equity, held, price, weight);
    let drift = drift_bps_of(gap, equity);
    if within_band(s, drift) {
        return PlannedOrder {
            price,
            drift_bps: drift,
            ..passed_over(symbol)
        };
    }
    let quantity = size_qty(gap, price, s.quantity_step);
    allowed_order(s, symbol, quantity, price, drift)
}
