// The C interface, one fill by itself: on an account of at most one position, its numbers in lent places.
// Kept: entries take numbers and lent places and return a number, since C calls them.
#![tactic(auto)]

ghost use Rattle.std.specs.Prelude.{◌≡◌, ◌≤◌, length};
ghost use Rattle.answer.specs.Numbers.{checked};
ghost use Rattle.cost_model.specs.Costs.{model, with_ceiling};
ghost use Rattle.table.specs.Rows.{cols};
ghost use Rattle.table.specs.Inner.Rows.{counted_cols};
ghost use Rattle.fills.specs.Records.{all_words, all_ints, fronted};
ghost use Rattle.fills.specs.Inner.Runs.{records_of};
ghost use Rattle.c_fill.specs.Single.{ask_of, asked_terms, position_in, is_none, sound_alone, good_ask, refusal_of, counting, slots, fill_told, fill_one};
ghost use Rattle.c_fill.specs.Inner.Single.{book_of, entered_in, seen_by, seen_after, sight_of, sighted, money_of};

use answer::{Answer, Entry};
use cost_model::CostModel;
use fills::{Book, Filled, Order, Terms};
use position::{Position, Shares, Symbol};
use table::{Columns, Found};

// What a caller asks: the settings that a fill goes by, its period and the number of its kind, and the order.
#[derive(Clone, Copy)]
struct Ask {
    costs: CostModel,
    quantity_step: i64,
    period: u64,
    // Kept: a number for a kind, since C gives it so, and one that names no kind is refused (`good_ask`).
    kind: u64,
    symbol: u64,
    quantity: i64,
    price: i64,
}

// A fill, and the position of its symbol after it.
#[derive(Clone, Copy)]
struct Seen {
    filled: Filled,
    position: Position,
}

// Every fill is recorded.
fn terms_of(a: Ask) -> Terms
    ensures { result ≡ asked_terms a }
{
    Terms {
        costs: a.costs,
        quantity_step: a.quantity_step,
        recording: true,
        period_index: a.period,
        kind: fills::kind_of(a.kind),
    }
}

// The scalars of an account, before its position is entered.
fn book_of(money: &[i64], tallies: &[u64]) -> Book
    requires { (length money.now ≡ 6) × (length tallies.now ≡ 2) }
    ensures { result ≡ book_of money.now tallies.now }
{
    Book {
        cash: money[0],
        count: 0,
        trimmed: tallies[0],
        shortfall: money[1],
        sequence: tallies[1],
        written: 0,
        hint: 0,
    }
}

// The position of the order's symbol that the numbers of an account hold.
fn position_in(symbol: u64, money: &[i64]) -> Position
    requires { length money.now ≡ 6 }
    ensures { result ≡ position_in symbol money.now }
{
    Position {
        symbol: Symbol(symbol),
        quantity: Shares::from_raw(money[2]),
        avg_entry_price: money[3],
        realized_pnl: money[4],
        total_cost: money[5],
    }
}

// "A sound account has .. cash at least 0, positions with good symbols".
fn is_sound(cash: i64, p: Position) -> bool
    ensures { result ≡ sound_alone cash p }
{
    cash >= 0 && p.is_sound()
}

// "an unknown kind answers 1"
fn is_good(a: Ask) -> bool
    ensures { result ≡ good_ask a }
{
    a.costs.is_good() && a.quantity_step >= 1 && a.kind < 2
}

// What a fill is refused for, in the order of document 01.
#[tactic(auto, unfolding(crate::specs::Single::refusal_of))]
fn check(a: Ask, cash: i64, p: Position, words: usize, ints: usize) -> Result<(), Answer>
    ensures { result ≡ checked (refusal_of a cash p words ints) }
{
    if !is_sound(cash, p) {
        return Err(Answer::Unsound);
    }
    if !is_good(a) {
        return Err(Answer::BadSetting);
    }
    if a.price < 1 {
        return Err(Answer::BadPrice(Entry::Price(0)));
    }
    if words < 4 || ints < 8 {
        return Err(Answer::NoRecordRoom);
    }
    Ok(())
}

// Of a sound position the other two numbers are then 0 too.
fn is_none(p: Position) -> bool
    ensures { result ≡ is_none p }
{
    p.quantity.is_zero() && p.realized_pnl == 0
}

// The position into an empty table, unless it stands for none.
fn enter(columns: &mut Columns, p: Position) -> usize
    ensures { counted_cols result columns.new ≡ entered_in p columns.old }
{
    if is_none(p) {
        return 0;
    }
    columns.post(0, Found::Absent(0), p)
}

// The fill, by the table that every fill goes by.
fn fill_alone(a: Ask, b: Book, p: Position) -> Seen
    ensures { seen_by result ≡ seen_after a b p }
{
    let mut columns = Columns::empty();
    let count = enter(&mut columns, p);
    let filled = fills::fill_one(
        &mut columns,
        Book { count, ..b },
        Order {
            symbol: Symbol(a.symbol),
            quantity: Shares::from_raw(a.quantity),
            price: a.price,
        },
        terms_of(a),
    );
    let f = table::find(&columns.symbol, filled.book.count, a.symbol, 0);
    let position = columns.held(f, a.symbol);
    Seen { filled, position }
}

// The fill that is asked, unless it is refused. "Account bytes of the wrong length answer 11": so do numbers and counts of another length.
fn fill_checked(
    a: Ask,
    money: &[i64],
    tallies: &[u64],
    words: &[u64],
    ints: &[i64],
) -> Result<Seen, Answer>
    ensures { sight_of result ≡ sighted a (slots money.now tallies.now words.now ints.now) }
{
    if money.len() != 6 || tallies.len() != 2 {
        return Err(Answer::Unsound);
    }
    let b = book_of(money, tallies);
    let p = position_in(a.symbol, money);
    check(a, b.cash, p, words.len(), ints.len())?;
    Ok(fill_alone(a, b, p))
}

// The numbers of an account and its position.
fn money_of(b: Book, p: Position) -> [i64; 6]
    ensures { result ≡ money_of b p }
{
    [
        b.cash,
        b.shortfall,
        p.quantity.raw(),
        p.avg_entry_price,
        p.realized_pnl,
        p.total_cost,
    ]
}

// The record of a fill, if there is one, into the first place.
fn keep(words: &mut [u64], ints: &mut [i64], f: Filled)
    requires { (4 ≤ length words.old) × (8 ≤ length ints.old) }
    ensures { (words.new ≡ fronted (all_words (records_of f)) words.old) × (ints.new ≡ fronted (all_ints (records_of f)) ints.old) }
{
    if let Some(r) = f.record {
        fills::store(words, ints, 0, r);
    }
}

// What an entry returns when it is done: 256 times the count of records.
fn counting(f: Filled) -> u64
    ensures { result ≡ counting (records_of f) }
{
    if f.record.is_some() { 256 } else { 0 }
}

// Into the lent places, which a refusal leaves as found.
fn fill_asked(
    a: Ask,
    money: &mut [i64],
    tallies: &mut [u64],
    words: &mut [u64],
    ints: &mut [i64],
) -> u64
    ensures { let lent = slots money.old tallies.old words.old ints.old in
        let left = slots money.new tallies.new words.new ints.new in
        fill_told result left ≡ fill_one a lent }
{
    match fill_checked(a, money, tallies, words, ints) {
        Ok(seen) => {
            let b = seen.filled.book;
            money.copy_from_slice(&money_of(b, seen.position));
            tallies.copy_from_slice(&[b.trimmed, b.sequence]);
            keep(words, ints, seen.filled);
            counting(seen.filled)
        }
        Err(answer) => answer::word(answer),
    }
}

// The settings of a fill as numbers, the order, and the lent places: cash, shortfall and the position's quantity, average, realized profit and total cost;
// the counts of trimmed fills and of records; and room for one record or more, as four words and eight numbers. A refusal leaves all as found.
// The word of a refusal, or 256 times the count of records that were written.
#[unsafe(no_mangle)]
pub extern "C" fn tc_fill(
    commission_bps: f64,
    slippage_bps: f64,
    min_commission: i64,
    quantity_step: i64,
    period: u64,
    kind: u64,
    symbol: u64,
    quantity: i64,
    price: i64,
    money: &mut [i64],
    tallies: &mut [u64],
    words: &mut [u64],
    ints: &mut [i64],
) -> u64
    ensures { let lent = slots money.old tallies.old words.old ints.old in
        let left = slots money.new tallies.new words.new ints.new in
        fill_told result left ≡ fill_one (ask_of (model commission_bps slippage_bps min_commission) quantity_step period kind symbol quantity price) lent }
{
    tc_fill_with_ceiling(
        commission_bps,
        slippage_bps,
        min_commission,
        0,
        quantity_step,
        period,
        kind,
        symbol,
        quantity,
        price,
        money,
        tallies,
        words,
        ints,
    )
}

// The same under a ceiling, 0 for none.
#[unsafe(no_mangle)]
pub extern "C" fn tc_fill_with_ceiling(
    commission_bps: f64,
    slippage_bps: f64,
    min_commission: i64,
    max_commission: i64,
    quantity_step: i64,
    period: u64,
    kind: u64,
    symbol: u64,
    quantity: i64,
    price: i64,
    money: &mut [i64],
    tallies: &mut [u64],
    words: &mut [u64],
    ints: &mut [i64],
) -> u64
    ensures { let lent = slots money.old tallies.old words.old ints.old in
        let left = slots money.new tallies.new words.new ints.new in
        fill_told result left ≡ fill_one (ask_of (with_ceiling max_commission (model commission_bps slippage_bps min_commission)) quantity_step period kind symbol quantity price) lent }
{
    let a = Ask {
        costs: CostModel {
            commission_bps,
            slippage_bps,
            min_commission,
            max_commission,
        },
        quantity_step,
        period,
        kind,
        symbol,
        quantity,
        price,
    };
    fill_asked(a, money, tallies, words, ints)
}
