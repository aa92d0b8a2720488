// Which orders of a plan the caps admit.
ghost use Rattle.std.specs.Prelude.{◌≡◌, List, ℕ, Float};
ghost use Rattle.admission.specs.Admission.{capped, reached};
ghost use Rattle.admission.specs.Inner.Admission.{most_of};
ghost use Rattle.admission.specs.Inner.Columns.{plan_cols, counted_plan};
ghost use Rattle.admission.specs.Inner.Offers.{part_offered, offered, cut_plan};

use account::{Settings, TradeCap};
use position::Shares;
use table::{Columns, used};

// What becomes of an order that is offered to the caps.
#[derive(Clone, Copy)]
pub(crate) enum Offered {
    // Admitted whole, with what remains of the notional cap.
    Whole(i64),
    // Cut to what remains: the last order.
    Part(Shares),
    // Not admitted, nor any after it.
    Ends,
}

// "With a trade cap or notional cap": a trade cap of any size counts.
pub fn is_capped(s: Settings) -> bool
    ensures { result ≡ capped s }
{
    match s.max_trades_per_rebalance {
        TradeCap::AtMost(_) => true,
        TradeCap::Absent => 0 < s.max_rebalance_notional,
    }
}

// "until the trade cap": whether n orders are as many as it admits.
fn is_reached(cap: TradeCap, n: usize) -> bool
    ensures { result ≡ reached cap n }
{
    match cap {
        TradeCap::AtMost(most) => most <= n as u64,
        TradeCap::Absent => false,
    }
}

// The most orders that the trade cap admits of a plan, which has 64 places.
pub fn most_of(s: Settings) -> usize
    ensures { result ≡ most_of s }
{
    match s.max_trades_per_rebalance {
        TradeCap::AtMost(most) => used(most as usize, 64),
        TradeCap::Absent => 64,
    }
}

// "truncated to it by the same formula, kept if not zero and not under the minimum, and ends admission"
fn offer_part(s: Settings, left: i64, quantity: Shares, price: i64) -> Offered
    ensures { result ≡ part_offered s left quantity.0 price }
{
    let cut = sizing::truncate_qty_to_max_value(quantity, price, s.quantity_step, left);
    if cut.is_zero() || sizing::notional_of(cut, price) < s.min_order_value {
        Offered::Ends
    } else {
        Offered::Part(cut)
    }
}

// The order after n admitted ones, with left of the notional cap.
fn offer(s: Settings, n: usize, left: i64, quantity: Shares, price: i64) -> Offered
    ensures { result ≡ offered s n left quantity.0 price }
{
    if is_reached(s.max_trades_per_rebalance, n) {
        return Offered::Ends;
    }
    if s.max_rebalance_notional <= 0 {
        return Offered::Whole(left);
    }
    if left <= 0 {
        return Offered::Ends;
    }
    let notional = sizing::notional_of(quantity, price);
    if left < notional {
        return offer_part(s, left, quantity, price);
    }
    Offered::Whole(left - notional)
}

// Cuts the plan of n orders to what the caps admit: returns the count, and writes the quantity of the last where it is cut. Symbols and
// drifts, whatever stands beside, take no part.
pub fn admit(quantity: &mut [i64; 64], price: &[i64; 64], n: usize, s: Settings) -> usize
    ensures { (k : List ℕ) (d : List Float) → counted_plan result (plan_cols k quantity.new price.now d)
        ≡ cut_plan s (counted_plan n (plan_cols k quantity.old price.now d)) }
{
    let m = used(n, 64);
    let mut left = s.max_rebalance_notional;
    for i in 0..m {
        match offer(s, i, left, Shares::from_raw(quantity[i]), price[i]) {
            Offered::Whole(rest) => left = rest,
            Offered::Part(cut) => {
                quantity[i] = cut.raw();
                return i + 1;
            }
            Offered::Ends => return i,
        }
    }
    m
}
