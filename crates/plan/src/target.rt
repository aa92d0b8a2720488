// "Then targets in list order".
ghost use Rattle.std.specs.Prelude.{◌≡◌, take};
ghost use Rattle.table.specs.Inner.Keyed.{Rising};
ghost use Rattle.admission.specs.Inner.Columns.{plan_cols, counted_plan};
ghost use Rattle.plan.specs.Inner.Adding.{quantity_at, HoldsQuantity, PlansTargets};

use account::Settings;
use admission::{add_order, is_capped, most_of};
use call_lists::quote;
use position::{Shares, Symbol};
use table::{Columns, Found, find};
use wanted::planned_target;

// The quantity at a place that a search found, 0 where it found none.
fn quantity_at(held: &[i64; 64], f: Found) -> i64
    ensures { result ≡ quantity_at f held.now }
{
    match f {
        Found::At(i) if i < 64 => held[i],
        _ => 0,
    }
}

// The quantity that is held of a symbol, where the symbols ascend.
fn quantity_of<'a>(
    key: &'a [u64; 64],
    held: &'a [i64; 64],
    n: usize,
    symbol: u64,
    hint: usize,
) -> i64
    ensures { HoldsQuantity key.now held.now n symbol result }
{
    quantity_at(held, find(key, n, symbol, hint))
}

// Adds the orders for the targets to a plan of m orders; returns the count. A target is likely held at its own place in the list.
// The plan is kept to what its trade cap admits, as that of the closes is.
pub fn plan_targets<'a>(
    key: &'a [u64; 64],
    held: &'a [i64; 64],
    n: usize,
    targets: &[u64],
    weights: &[f64],
    symbols: &[u64],
    prices: &[i64],
    s: Settings,
    equity: i64,
    symbol: &mut [u64; 64],
    quantity: &mut [i64; 64],
    price: &mut [i64; 64],
    drift: &mut [f64; 64],
    m: usize,
) -> usize
    ensures { let c = plan_cols symbol.old quantity.old price.old drift.old in
        let d = plan_cols symbol.new quantity.new price.new drift.new in
        PlansTargets s equity key.now held.now n targets.now weights.now symbols.now prices.now
        (counted_plan m c) (counted_plan result d) }
{
    let capped = is_capped(s);
    let most = most_of(s);
    let mut count = m;
    let mut hint = 0;
    for (i, (k, w)) in targets.iter().zip(weights).enumerate() {
        let q = quote(symbols, prices, *k, hint);
        hint = q.next;
        let h = quantity_of(key, held, n, *k, i);
        let o = planned_target(s, equity, Symbol(*k), Shares::from_raw(h), q.price, *w);
        count = add_order(symbol, quantity, price, drift, count, o, capped).min(most);
    }
    count
}
