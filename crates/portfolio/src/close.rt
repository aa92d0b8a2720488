// Closing one position at a price.
ghost use Rattle.std.specs.Prelude.{◌≡◌, length};
ghost use Rattle.table.specs.Rows.{cols};
ghost use Rattle.account.specs.Inner.Account.{account_with};
ghost use Rattle.portfolio.specs.Answers.{record_places};
ghost use Rattle.portfolio.specs.Close.{position_closed};
ghost use Rattle.portfolio.specs.Trades.{filed, filed_by};
ghost use Rattle.portfolio.specs.Inner.Trades.{traded_on};

use crate::refusal::{check_close, holding_of, places};
use crate::trade::{Ran, Traded, ledger_of, run, traded_on, whole_columns};
use account::{Account, Ledger};
use fills::ExecutionKind;
use table::Columns;

// The whole holding, the other way; the last-rebalance figures stay.
#[tactic(auto, unfolding(crate::specs::Close::position_closed, fills::specs::Records::all_words, fills::specs::Records::all_ints))]
pub fn close_on(
    h: Ledger,
    columns: &mut Columns,
    s: u64,
    price: i64,
    period: u64,
    kind: ExecutionKind,
    words: &mut [u64],
    ints: &mut [i64],
) -> Ran
    ensures { filed_by (traded_on result columns.new) words.new ints.new
        ≡ filed (position_closed (account_with h columns.old) s price period kind (record_places (length words.old) (length ints.old))) words.old ints.old }
{
    whole_columns(*columns);
    let room = places(words.len(), ints.len());
    if let Err(answer) = check_close(h, columns, s, price, room) {
        return Ran {
            answer,
            records: 0,
            ledger: h,
        };
    }
    let p = holding_of(columns, h.count, s);
    let mut os = [0; 64];
    let mut oq = [0; 64];
    let mut op = [0; 64];
    os[0] = s;
    oq[0] = p.quantity.neg().raw();
    op[0] = price;
    let c = h.counters;
    run(
        columns,
        &os,
        &oq,
        &op,
        1,
        period,
        kind,
        c.last_rebalance_order_count,
        c.last_rebalance_notional,
        words,
        ints,
        h,
    )
}

// The same of an account by value.
pub fn close_position_at(
    a: Account,
    symbol: u64,
    price: i64,
    period: u64,
    kind: ExecutionKind,
    words: &mut [u64],
    ints: &mut [i64],
) -> Traded
    ensures { filed_by result words.new ints.new
        ≡ filed (position_closed a symbol price period kind (record_places (length words.old) (length ints.old))) words.old ints.old }
{
    let mut t = a.positions;
    let r = close_on(
        ledger_of(a),
        &mut t.columns,
        symbol,
        price,
        period,
        kind,
        words,
        ints,
    );
    traded_on(r, &t)
}
