// A rebalance: the plan at the prices of the call, and its fills.
ghost use Rattle.std.specs.Prelude.{◌≡◌, length};
ghost use Rattle.call_lists.specs.Lists.{price_of};
ghost use Rattle.table.specs.Rows.{cols};
ghost use Rattle.account.specs.Inner.Account.{account_with};
ghost use Rattle.admission.specs.Inner.Columns.{plan_cols};
ghost use Rattle.portfolio.specs.Answers.{record_places};
ghost use Rattle.portfolio.specs.Inner.Planned.{PlansFromCash, Ready};
ghost use Rattle.portfolio.specs.Rebalance.{admitted_plan, after_rebalance, rebalanced};
ghost use Rattle.portfolio.specs.Trades.{filed, filed_by};
ghost use Rattle.portfolio.specs.Inner.Trades.{traded_on};

use crate::refusal::{check_rebalance, places};
use crate::trade::{Ran, Traded, ledger_of, run, traded_on, whole_columns};
use account::{Account, Ledger, Settings};
use call_lists::{is_ascending, sort_prices};
use fills::ExecutionKind;
use plan::{Planned, make_plan};
use table::Columns;
use wanted::total_worth;

// "At equity 0 or below the call is done with no orders and both last-rebalance figures 0": else the plan of what is held, in columns that the
// caller lends.
#[tactic(auto, unfolding(crate::specs::Inner::Planned::plan_at))]
fn plan_on(
    key: &[u64; 64],
    held: &[i64; 64],
    n: usize,
    targets: &[u64],
    weights: &[f64],
    symbols: &[u64],
    prices: &[i64],
    s: Settings,
    cash: i64,
    symbol: &mut [u64; 64],
    quantity: &mut [i64; 64],
    price: &mut [i64; 64],
    drift: &mut [f64; 64],
) -> Planned
    ensures { let c = plan_cols symbol.old quantity.old price.old drift.old in
        let d = plan_cols symbol.new quantity.new price.new drift.new in
        PlansFromCash s cash key.now held.now n targets.now weights.now symbols.now prices.now
        c d result }
{
    let equity = sums::saturating_add(cash, total_worth(key, held, n, symbols, prices));
    if equity <= 0 {
        return Planned {
            count: 0,
            notional: 0,
        };
    }
    make_plan(
        key, held, n, targets, weights, symbols, prices, s, equity, symbol, quantity, price, drift,
    )
}

// Plans at prices whose symbols ascend, and fills the plan as it stands then.
fn plan_and_fill(
    h: Ledger,
    columns: &mut Columns,
    targets: &[u64],
    weights: &[f64],
    symbols: &[u64],
    prices: &[i64],
    period: u64,
    kind: ExecutionKind,
    words: &mut [u64],
    ints: &mut [i64],
) -> Ran
    ensures { let c = columns.old in
        let d = columns.new in
        Ready (account_with h c) targets.now weights.now symbols.now (record_places (length words.old) (length ints.old))
        → filed_by (traded_on result d) words.new ints.new
        ≡ filed (after_rebalance (account_with h c) (admitted_plan (account_with h c) targets.now weights.now (price_of symbols.now prices.now)) period kind)
        words.old ints.old }
{
    let mut os = [0; 64];
    let mut oq = [0; 64];
    let mut op = [0; 64];
    let mut od = [0.0; 64];
    let p = plan_on(
        &columns.symbol,
        &columns.quantity,
        h.count,
        targets,
        weights,
        symbols,
        prices,
        h.settings,
        h.cash,
        &mut os,
        &mut oq,
        &mut op,
        &mut od,
    );
    let orders = p.count as u64;
    run(
        columns, &os, &oq, &op, p.count, period, kind, orders, p.notional, words, ints, h,
    )
}

// Moves the account to its targets at the listed prices. Prices whose symbols ascend are used in place; others are sorted first.
// Kept: no heap, so the sorted prices stand in two fixed columns, of which slices go on.
#[tactic(auto, unfolding(crate::specs::Rebalance::rebalanced, fills::specs::Records::all_words, fills::specs::Records::all_ints))]
pub fn rebalance_on(
    h: Ledger,
    columns: &mut Columns,
    targets: &[u64],
    weights: &[f64],
    symbols: &[u64],
    prices: &[i64],
    period: u64,
    kind: ExecutionKind,
    words: &mut [u64],
    ints: &mut [i64],
) -> Ran
    ensures { filed_by (traded_on result columns.new) words.new ints.new
        ≡ filed (rebalanced (account_with h columns.old) targets.now weights.now symbols.now prices.now period kind
        (record_places (length words.old) (length ints.old))) words.old ints.old }
{
    whole_columns(*columns);
    let room = places(words.len(), ints.len());
    if let Err(answer) = check_rebalance(h, columns, targets, weights, symbols, prices, room) {
        return Ran {
            answer,
            records: 0,
            ledger: h,
        };
    }
    if is_ascending(symbols) {
        return plan_and_fill(
            h, columns, targets, weights, symbols, prices, period, kind, words, ints,
        );
    }
    let mut keys = [0; 128];
    let mut values = [0; 128];
    let m = sort_prices(symbols, prices, &mut keys, &mut values);
    plan_and_fill(
        h,
        columns,
        targets,
        weights,
        &keys[..m],
        &values[..m],
        period,
        kind,
        words,
        ints,
    )
}

// The same of an account by value.
pub fn rebalance_simple(
    a: Account,
    targets: &[u64],
    weights: &[f64],
    symbols: &[u64],
    prices: &[i64],
    period: u64,
    kind: ExecutionKind,
    words: &mut [u64],
    ints: &mut [i64],
) -> Traded
    ensures { filed_by result words.new ints.new
        ≡ filed (rebalanced a targets.now weights.now symbols.now prices.now period kind
        (record_places (length words.old) (length ints.old))) words.old ints.old }
{
    let mut t = a.positions;
    let r = rebalance_on(
        ledger_of(a),
        &mut t.columns,
        targets,
        weights,
        symbols,
        prices,
        period,
        kind,
        words,
        ints,
    );
    traded_on(r, &t)
}
