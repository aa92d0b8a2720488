// What an order may be: its notional, drift and size, its truncation to a maximum, and the largest buy that cash pays for.
#![tactic(auto)]

ghost use Rattle.std.specs.Prelude.{◌≡◌, ◌*◌, ◌/◌, ◌^◌, ◌<◌, ◌≤◌, true};
ghost use Rattle.sums.specs.Sums.{notional, snap};
ghost use Rattle.sums.specs.Wide.{wide};
ghost use Rattle.cost_model.specs.Costs.{good_costs};
ghost use Rattle.sizing.specs.Afford.{need, fits, largest, affordable};
ghost use Rattle.sizing.specs.Cash.{cash_taken, lowers_cash};
ghost use Rattle.sizing.specs.Sizing.{above, shares_for, sized, cut_to, drift};

use cost_model::CostModel;
use position::Shares;
use sums::{SCALE, Wide};

// The part of x above zero: a price or a step of 0 or less divides nothing.
#[tactic(auto, unfolding(crate::specs::Sizing::above))]
fn above(x: i64) -> u64
    ensures { result ≡ above x }
{
    x.max(0) as u64
}

// The notional of a fill, from the exact magnitudes: that of the lowest number is not saturated first.
pub fn notional_of(quantity: Shares, price: i64) -> i64
    ensures { result ≡ notional quantity.0 price }
{
    sums::magnitude(quantity.raw(), price)
}

// n over the price, snapped to the step, by one division: by the price of a step, which takes one word.
fn snapped_quotient(n: u64, price: u64, step: u64) -> u64
    requires { (price < 2 ^ 32) × (step < 2 ^ 32) }
    ensures { result ≡ snap (n / price) step }
{
    let unit = price * step;
    if unit == 0 { 0 } else { n / unit * step }
}

// How many micro-shares a value is at a price, truncated and snapped to the step. It has two words: the snap comes before any clamp.
fn shares_for(value: u64, price: u64, step: u64) -> Wide
    ensures { result ≡ wide (shares_for value price step) }
{
    let total = sums::mul_wide(value, SCALE);
    if total.hi == 0 && price < 0x1_0000_0000 && step < 0x1_0000_0000 {
        return Wide {
            hi: 0,
            lo: snapped_quotient(total.lo, price, step),
        };
    }
    sums::snap_wide(sums::div_wide(total, price), step)
}

// "the gap becomes shares, truncated, snapped toward zero to the step, then clamped"
pub fn size_qty(diff_value: i64, price: i64, step: i64) -> Shares
    ensures { result.0 ≡ sized diff_value price step }
{
    let snapped = shares_for(diff_value.unsigned_abs(), above(price), above(step));
    Shares::from_raw(sums::clamped(diff_value < 0, snapped))
}

// "the quantity keeps its sign and becomes maximum × SCALE / price, truncated and snapped to the step"
pub fn truncate_qty_to_max_value(quantity: Shares, price: i64, step: i64, max_value: i64) -> Shares
    ensures { result.0 ≡ cut_to quantity.0 price step max_value }
{
    let snapped = shares_for(above(max_value), price.unsigned_abs(), above(step));
    let most = sums::clamped(false, snapped);
    if quantity.is_negative() {
        return Shares::from_raw(-most);
    }
    Shares::from_raw(most)
}

// "Drift is (absolute value / equity) × 10,000, divided first."
pub fn drift_bps_of(value: i64, equity: i64) -> f64
    ensures { result ≡ drift value equity }
{
    doubles::u64_to_f64(value.unsigned_abs()) / doubles::i64_to_f64(equity) * 10_000.0
}

// "A buy's need is notional plus commission, saturating."
#[tactic(auto, unfolding(crate::specs::Afford::need))]
pub fn buy_cash_required(quantity: Shares, price: i64, costs: CostModel) -> i64
    ensures { result ≡ need costs quantity.0 price }
{
    if quantity.raw() <= 0 || price <= 0 {
        return 0;
    }
    let notional = notional_of(quantity, price);
    sums::saturating_add(notional, costs.compute_cost(notional))
}

// "Cash falls by the signed value plus commission, saturating": by this much, for a fill at an effective price.
#[tactic(auto, unfolding(crate::specs::Cash::cash_taken))]
fn cash_taken(quantity: Shares, price: i64, costs: CostModel) -> i64
    ensures { result ≡ cash_taken costs quantity.0 price }
{
    let cost = costs.compute_cost(notional_of(quantity, price));
    sums::saturating_add(sums::value(quantity.raw(), price), cost)
}

// Whether an order lowers cash when it fills whole at its effective price, commission counted. A saturated sum has the sign of the exact one.
pub fn lowers_cash(quantity: Shares, price: i64, costs: CostModel) -> bool
    ensures { result ≡ lowers_cash costs quantity.0 price }
{
    let paid = costs.effective_price(quantity, price);
    0 < cash_taken(quantity, paid, costs)
}

// What is left of cash after the ceiling, if there is one, where that is more than n.
fn past_ceiling(n: i64, cash: i64, ceiling: i64) -> i64 {
    if ceiling == 0 {
        n
    } else {
        n.max(cash.saturating_sub(ceiling))
    }
}

// A guess at the largest notional that cash pays for with its commission: by the rate or by the floor, whichever leaves less, unless
// the ceiling leaves more, and one more or less where the rounding was against it.
fn guessed_notional(cash: i64, costs: CostModel) -> i64 {
    let flat = cash.saturating_sub(costs.min_commission);
    let rated = doubles::to_i64(
        doubles::i64_to_f64(cash) / (1.0 + costs.commission_bps / 10_000.0),
    );
    let n = past_ceiling(flat.min(rated), cash, costs.max_commission);
    let more = n.saturating_add(1);
    if more.saturating_add(costs.compute_cost(more)) <= cash {
        more
    } else if cash < n.saturating_add(costs.compute_cost(n)) {
        n.saturating_sub(1)
    } else {
        n
    }
}

// One more than a guess at the largest count of steps that fits. Values are truncated, so what is worth a unit less than the next
// cent is bought too; from 2^44 cents on, where that sum could need a second word, it is left out.
fn guessed_over(cash: i64, price: i64, step: u64, costs: CostModel) -> u64
    requires { 0 < step }
{
    let n = above(guessed_notional(cash, costs));
    let shares = if n < 0x1000_0000_0000 {
        sums::div_wide(
            Wide {
                hi: 0,
                lo: n * SCALE + 999_999,
            },
            above(price),
        )
    } else {
        sums::div_wide(sums::mul_wide(n, SCALE), above(price))
    };
    (shares.lo / step).wrapping_add(1)
}

// The next count to test, above lo and at most hi: the hint if it lies there, else the middle.
fn probe(lo: u64, hi: u64, hint: Option<u64>) -> u64
    requires { (lo < hi) × (hi < 2 ^ 63) }
    ensures { (lo < result) × (result ≤ hi) }
{
    match hint {
        Some(count) if lo < count && count <= hi => count,
        _ => lo + (hi - lo + 1) / 2,
    }
}

// The hint after mid was tested: after the first guess the count below it; after any other none, and the interval is halved.
fn after(mid: u64, over: u64) -> Option<u64> {
    if mid == over {
        Some(mid.wrapping_sub(1))
    } else {
        None
    }
}

// The largest count of steps up to most whose need fits cash. `min_commission` makes a naive cash / price overshoot, so it is
// searched for. Any guess is sound: a tested count lies between the ends, and one of them moves each turn.
// Kept: a `while`, as it halves an interval and counts no index.
fn affordable_steps(most: u64, cash: i64, step: u64, price: i64, costs: CostModel) -> u64
    requires { (0 < step) × (most * step < 2 ^ 63) × (good_costs costs ≡ true) }
    ensures { result ≡ largest (fits costs step cash price) most }
{
    let over = guessed_over(cash, price, step, costs);
    let mut hint = Some(over);
    let mut lo = 0u64;
    let mut hi = most;
    while lo < hi {
        let mid = probe(lo, hi, hint);
        hint = after(mid, over);
        if buy_cash_required(Shares::from_raw((mid * step) as i64), price, costs) <= cash {
            lo = mid;
        } else {
            hi = mid - 1;
        }
    }
    lo
}

// "the largest step multiple, not above the request, whose need fits cash (a zero fill needs 0); at cash 0 it is nothing". At a
// price of 0 or below every count needs 0; no buy is at such a price, and nothing is bought there. Under costs that no account may
// have the need could fall as the quantity rises, and halving would miss the largest.
#[tactic(auto, unfolding(crate::specs::Afford::affordable))]
pub fn largest_affordable_buy_qty(
    requested: Shares,
    cash: i64,
    step: i64,
    price: i64,
    costs: CostModel,
) -> Shares
    ensures { result.0 ≡ affordable costs step cash requested.0 price }
{
    let unit = above(step);
    if cash <= 0 || price <= 0 || unit == 0 || !costs.is_good() {
        return Shares::ZERO;
    }
    let count = affordable_steps(above(requested.raw()) / unit, cash, unit, price, costs);
    Shares::from_raw((count * unit) as i64)
}
