// Filling orders on lent columns.
ghost use Rattle.std.specs.Prelude.{◌≡◌, ◌<◌, pos, get_or};
ghost use Rattle.table.specs.Rows.{cols};
ghost use Rattle.table.specs.Inner.Rows.{Ordered};
ghost use Rattle.fills.specs.Orders.{order};
ghost use Rattle.fills.specs.Records.{buffers, stored_all};
ghost use Rattle.fills.specs.Inner.Runs.{orders, settled_in, counted_in, records_of, kept_in, Fills, Given, Runs};

use crate::deal::{Deal, deal_of};
use crate::record::{ExecutionRecord, record_of, store};
use crate::terms::{Book, Order, Terms};
use position::{Shares, Symbol};
use table::{Columns, Found};

// One fill: the scalars after it, what was made of the order as a record, also where it filled nothing or nothing is recorded, and that record, if it is kept.
#[derive(Clone, Copy)]
pub struct Filled {
    pub book: Book,
    pub made: ExecutionRecord,
    pub record: Option<ExecutionRecord>,
}

// "The trimmed count and the lost notional rise even when nothing remains."
#[tactic(auto, unfolding(crate::specs::Inner::Runs::counted_in))]
fn counted(b: Book, d: Deal) -> Book
    ensures { result ≡ counted_in d b }
{
    match d.lost {
        None => b,
        Some(lost) => Book {
            trimmed: b.trimmed.saturating_add(1),
            shortfall: sums::saturating_add(b.shortfall, lost),
            ..b
        },
    }
}

// The scalars after a fill that leaves this cash and this count of positions: the record count rises only while recording.
#[tactic(auto, unfolding(crate::specs::Inner::Runs::settled_in))]
fn settled_in(b: Book, cash: i64, count: usize, recorded: bool, hint: usize) -> Book
    ensures { result ≡ settled_in cash count recorded hint b }
{
    Book {
        cash,
        count,
        sequence: if recorded {
            b.sequence.saturating_add(1)
        } else {
            b.sequence
        },
        hint,
        ..b
    }
}

// The place after the one that was found: where the next symbol is looked for first.
fn place_after(f: Found) -> usize {
    match f {
        Found::At(i) | Found::Absent(i) => { if i < 64 { i + 1 } else { 0 } }
    }
}

// Fills one order: "Symbols with no fill keep their positions to the last field."
pub fn fill_one(columns: &mut Columns, b: Book, o: Order, t: Terms) -> Filled
    ensures { Ordered b.count columns.old → Fills t o b columns.old result columns.new }
{
    let d = deal_of(o, b.cash, t);
    let made = record_of(t, o, d, b.sequence, b.cash);
    let c = counted(b, d);
    if d.quantity.is_zero() {
        return Filled {
            book: c,
            made,
            record: None,
        };
    }
    let f = table::find(&columns.symbol, b.count, o.symbol.0, b.hint);
    let p = columns.held(f, o.symbol.0);
    let z = p.fill(d.quantity, d.price);
    let count = columns.post(b.count, f, z);
    Filled {
        book: settled_in(c, d.cash_after, count, t.recording, place_after(f)),
        made,
        record: t.recording.then_some(made),
    }
}

// Keeps the record of a fill, if there is one, in the lent slices.
fn keep(words: &mut [u64], ints: &mut [i64], f: Filled) -> Book
    ensures { (result ≡ kept_in result.written f.book) × (buffers words.new ints.new result.written
        ≡ stored_all (records_of f) (buffers words.old ints.old f.book.written)) }
{
    match f.record {
        None => f.book,
        Some(r) => Book {
            written: store(words, ints, f.book.written, r),
            ..f.book
        },
    }
}

// The order at place k of three columns.
fn order_at(os: &[u64; 64], oq: &[i64; 64], op: &[i64; 64], k: usize) -> Order
    requires { k < 64 }
    ensures { result ≡ order (get_or os.now k 0) (get_or oq.now k (pos 0)) (get_or op.now k (pos 0)) }
{
    Order {
        symbol: Symbol(os[k]),
        quantity: Shares::from_raw(oq[k]),
        price: op[k],
    }
}

// Fills the first m orders of three columns, one after the other; "records go into a lent run of execution records, in the order filled".
pub fn fill_all(
    columns: &mut Columns,
    words: &mut [u64],
    ints: &mut [i64],
    os: &[u64; 64],
    oq: &[i64; 64],
    op: &[i64; 64],
    m: usize,
    b0: Book,
    t: Terms,
) -> Book
    ensures { let c = columns.old in
        let d = columns.new in
        Given b0.count c os.now oq.now op.now
        → Runs t (orders m os.now oq.now op.now)
        b0 c (buffers words.old ints.old b0.written) result d (buffers words.new ints.new result.written) }
{
    let mut b = b0;
    for k in 0..m.min(64) {
        let o = order_at(os, oq, op, k);
        let f = fill_one(columns, b, o, t);
        b = keep(words, ints, f);
    }
    b
}
