// Orders filled on an account whose columns a caller lends.
ghost use Rattle.std.specs.Prelude.{◌≡◌, length};
ghost use Rattle.table.specs.Rows.{cols, columns_of, Full};
ghost use Rattle.fills.specs.Inner.Runs.{orders};
ghost use Rattle.account.specs.Inner.Account.{account_with, ledger_of};
ghost use Rattle.portfolio.specs.Answers.{record_places};
ghost use Rattle.portfolio.specs.Rebalance.{terms_by};
ghost use Rattle.portfolio.specs.Trades.{filed, filed_by};
ghost use Rattle.portfolio.specs.Inner.Trades.{Fillable, after_orders, book_of_ledger, ledger_from, traded_on};

use account::{Account, Counters, Ledger, Settings};
use answer::Answer;
use fills::{Book, ExecutionKind, Terms, fill_all};
use table::{Columns, Table};

// An answer, the count of records in the first places of the lent slices, and the account.
// Kept: "Each refusal returns its number with zero figures, the account as given": the answer and what goes with it are one struct.
#[derive(Clone, Copy)]
pub struct Traded {
    pub answer: Answer,
    pub records: usize,
    pub account: Account,
}

// The same but for the columns, which are lent and hold the positions after the call.
// Kept: "Each refusal returns its number with zero figures, the account as given": the answer and what goes with it are one struct.
#[derive(Clone, Copy)]
pub struct Ran {
    pub answer: Answer,
    pub records: usize,
    pub ledger: Ledger,
}

// Each column has its 64 places. Columns that are lent as one are known to have them by a copy, passed here; copy and call compile to nothing.
pub(crate) fn whole_columns(columns: Columns)
    ensures { Full columns }
{}

// An account but for its columns.
pub(crate) fn ledger_of(a: Account) -> Ledger
    ensures { result ≡ ledger_of a }
{
    Ledger {
        cash: a.cash,
        settings: a.settings,
        counters: a.counters,
        series: a.series,
        count: a.positions.count,
    }
}

// What a call on the columns of a table left, by value.
pub(crate) fn traded_on(r: Ran, t: &Table) -> Traded
    ensures { result ≡ traded_on r (columns_of t.now) }
{
    let h = r.ledger;
    Traded {
        answer: r.answer,
        records: r.records,
        account: Account {
            cash: h.cash,
            settings: h.settings,
            counters: h.counters,
            series: h.series,
            positions: Table {
                count: h.count,
                ..*t
            },
        },
    }
}

// "The caller gives period index and kind with the call."
fn terms_of(s: Settings, period_index: u64, kind: ExecutionKind) -> Terms
    ensures { result ≡ terms_by s period_index kind }
{
    Terms {
        costs: s.rules.cost_model,
        quantity_step: s.quantity_step,
        recording: s.recording,
        period_index,
        kind,
    }
}

// The scalars that fills change, as the ledger has them.
fn book_of(h: Ledger) -> Book
    ensures { result ≡ book_of_ledger h }
{
    Book {
        cash: h.cash,
        count: h.count,
        trimmed: h.counters.trimmed_fill_count,
        shortfall: h.counters.trimmed_shortfall_cents,
        sequence: h.counters.record_count,
        written: 0,
        hint: 0,
    }
}

// The ledger with the scalars after fills, and the two last-rebalance figures.
fn put_together(h: Ledger, b: Book, orders: u64, traded: i64) -> Ledger
    ensures { result ≡ ledger_from h b orders traded }
{
    Ledger {
        cash: b.cash,
        counters: Counters {
            last_rebalance_order_count: orders,
            last_rebalance_notional: traded,
            trimmed_fill_count: b.trimmed,
            trimmed_shortfall_cents: b.shortfall,
            record_count: b.sequence,
        },
        count: b.count,
        ..h
    }
}

// Fills the first m orders of three columns, with room for a record of each.
pub(crate) fn run(
    columns: &mut Columns,
    os: &[u64; 64],
    oq: &[i64; 64],
    op: &[i64; 64],
    m: usize,
    period: u64,
    kind: ExecutionKind,
    order_count: u64,
    notional: i64,
    words: &mut [u64],
    ints: &mut [i64],
    h: Ledger,
) -> Ran
    ensures { Fillable (account_with h columns.old) m (record_places (length words.old) (length ints.old)) os.now oq.now op.now
        → filed_by (traded_on result columns.new) words.new ints.new
        ≡ filed (after_orders (account_with h columns.old) (orders m os.now oq.now op.now) period kind order_count notional) words.old ints.old }
{
    let t = terms_of(h.settings, period, kind);
    let b = fill_all(columns, words, ints, os, oq, op, m, book_of(h), t);
    Ran {
        answer: Answer::Done,
        records: b.written,
        ledger: put_together(h, b, order_count, notional),
    }
}
