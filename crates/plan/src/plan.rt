// The plan of a rebalance.
ghost use Rattle.std.specs.Prelude.{◌≡◌};
ghost use Rattle.admission.specs.Inner.Columns.{plan_cols, counted_plan};
ghost use Rattle.plan.specs.Inner.Adding.{Makes};
ghost use Rattle.plan.specs.Inner.Planning.{Plans};

use crate::close::plan_closes;
use crate::target::plan_targets;
use account::Settings;
use admission::{admit, notional_sum, run_order};
use table::Columns;

// How many orders there are, and what they come to at listed prices.
#[derive(Clone, Copy)]
pub struct Planned {
    pub count: usize,
    pub notional: i64,
}

// Plans the closes and the targets in columns that the caller lends, and cuts the plan to what the caps admit; returns the count.
pub fn admit_plan<'a>(
    key: &'a [u64; 64],
    held: &'a [i64; 64],
    n: usize,
    targets: &[u64],
    weights: &[f64],
    symbols: &[u64],
    prices: &[i64],
    s: Settings,
    equity: i64,
    symbol: &mut [u64; 64],
    quantity: &mut [i64; 64],
    price: &mut [i64; 64],
    drift: &mut [f64; 64],
) -> usize
    ensures { let c = plan_cols symbol.old quantity.old price.old drift.old in
        let d = plan_cols symbol.new quantity.new price.new drift.new in
        Makes s equity key.now held.now n targets.now weights.now symbols.now prices.now
        (counted_plan 0 c) (counted_plan result d) }
{
    let closes = plan_closes(
        key, held, n, targets, symbols, prices, s, equity, symbol, quantity, price, drift, 0,
    );
    let wanted = plan_targets(
        key, held, n, targets, weights, symbols, prices, s, equity, symbol, quantity, price, drift,
        closes,
    );
    admit(quantity, price, wanted, s)
}

// The same, in cash-first mode put into running order: "those that lower no cash first, then the others". What the orders come to is summed as admitted.
pub fn make_plan<'a>(
    key: &'a [u64; 64],
    held: &'a [i64; 64],
    n: usize,
    targets: &[u64],
    weights: &[f64],
    symbols: &[u64],
    prices: &[i64],
    s: Settings,
    equity: i64,
    symbol: &mut [u64; 64],
    quantity: &mut [i64; 64],
    price: &mut [i64; 64],
    drift: &mut [f64; 64],
) -> Planned
    ensures { let c = plan_cols symbol.old quantity.old price.old drift.old in
        let d = plan_cols symbol.new quantity.new price.new drift.new in
        Plans s equity key.now held.now n targets.now weights.now symbols.now prices.now
        c d result }
{
    let count = admit_plan(
        key, held, n, targets, weights, symbols, prices, s, equity, symbol, quantity, price, drift,
    );
    let notional = notional_sum(quantity, price, count);
    if s.cash_first {
        let ran = run_order(symbol, quantity, price, drift, count, s.rules.cost_model);
        return Planned {
            count: ran,
            notional,
        };
    }
    Planned { count, notional }
}
