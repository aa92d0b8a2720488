// "Priced open holdings absent from targets are closed, in symbol order".
ghost use Rattle.std.specs.Prelude.{◌≡◌};
ghost use Rattle.call_lists.specs.Lists.{among};
ghost use Rattle.admission.specs.Inner.Columns.{plan_cols, counted_plan};
ghost use Rattle.plan.specs.Inner.Adding.{PlansCloses};

use account::Settings;
use admission::{add_order, is_capped, most_of};
use call_lists::{is_among, quote};
use position::{Shares, Symbol};
use table::{Columns, used};
use wanted::planned_close;

// Whether a symbol is a target. The hinted place is looked at first; the answer does not depend on the hint.
fn is_target(symbol: u64, targets: &[u64], hint: usize) -> bool
    ensures { result ≡ among symbol targets.now }
{
    hint < targets.len() && targets[hint] == symbol || is_among(symbol, targets)
}

// Adds the closes of n holdings to a plan of m orders; returns the count. A holding that is kept likely stands at its own place among the
// targets, and needs no price; the price of the next close likely stands at the place after the last one's.
// A trade cap admits the first of the plan alone, and those are the same whatever stood after them: the rest is dropped at each step.
pub fn plan_closes<'a>(
    key: &'a [u64; 64],
    held: &'a [i64; 64],
    n: usize,
    targets: &[u64],
    symbols: &[u64],
    prices: &[i64],
    s: Settings,
    equity: i64,
    symbol: &mut [u64; 64],
    quantity: &mut [i64; 64],
    price: &mut [i64; 64],
    drift: &mut [f64; 64],
    m: usize,
) -> usize
    ensures { let c = plan_cols symbol.old quantity.old price.old drift.old in
        let d = plan_cols symbol.new quantity.new price.new drift.new in
        PlansCloses s equity key.now held.now n targets.now symbols.now prices.now
        (counted_plan m c) (counted_plan result d) }
{
    let places = used(n, 64);
    let capped = is_capped(s);
    let most = most_of(s);
    let mut count = m;
    let mut hint = 0;
    for (i, (k, h)) in key[..places].iter().zip(&held[..places]).enumerate() {
        if !is_target(*k, targets, i) {
            let q = quote(symbols, prices, *k, hint);
            hint = q.next;
            let o = planned_close(s, equity, Symbol(*k), Shares::from_raw(*h), q.price, false);
            count = add_order(symbol, quantity, price, drift, count, o, capped);
        }
        count = count.min(most);
    }
    count
}
