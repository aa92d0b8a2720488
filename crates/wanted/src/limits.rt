// What skips an order or cuts it down: the band, the order maximum and minimum.
ghost use Rattle.std.specs.Prelude.{◌≡◌};
ghost use Rattle.wanted.specs.Plan.{within_band, under_maximum, limited};

use account::Settings;
use position::Shares;
use sizing::{notional_of, truncate_qty_to_max_value};

// "drift [..] at or below a positive band skips"
pub(crate) fn within_band(s: Settings, drift: f64) -> bool
    ensures { result ≡ within_band s drift }
{
    0.0 < s.no_trade_band_bps && drift <= s.no_trade_band_bps
}

// "over a positive order maximum, the quantity keeps its sign and becomes maximum × SCALE / price, truncated and snapped to the step"
fn under_maximum(s: Settings, quantity: Shares, price: i64) -> Shares
    ensures { result.0 ≡ under_maximum s quantity.0 price }
{
    let max = s.max_order_value;
    if 0 < max && max < notional_of(quantity, price) {
        truncate_qty_to_max_value(quantity, price, s.quantity_step, max)
    } else {
        quantity
    }
}

// "a notional below the minimum skips": what is left to order, 0 where the order is skipped. No notional is below 0.
pub(crate) fn limited(s: Settings, quantity: Shares, price: i64) -> Shares
    ensures { result.0 ≡ limited s quantity.0 price }
{
    let left = under_maximum(s, quantity, price);
    if 0 < s.min_order_value && notional_of(left, price) < s.min_order_value {
        Shares::ZERO
    } else {
        left
    }
}
