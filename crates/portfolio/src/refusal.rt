// What each call is refused for, in the order of document 01.
ghost use Rattle.std.specs.Prelude.{◌≡◌, ◌+◌, ◌≤◌, leb, length, take};
ghost use Rattle.answer.specs.Numbers.{checked};
ghost use Rattle.portfolio.specs.Answers.{record_places, room_for, query_answer, rebalance_answer, close_answer};
ghost use Rattle.portfolio.specs.Inner.Planned.{lacking, Lacking};
ghost use Rattle.table.specs.Inner.Keyed.{Rising};
ghost use Rattle.table.specs.Rows.{cols, rows, holding};
ghost use Rattle.table.specs.Inner.Rows.{Ordered};
ghost use Rattle.account.specs.Inner.Account.{account_with};

use crate::trade::whole_columns;
use account::{Account, Ledger, sound_account};
use answer::{Answer, Entry};
use call_lists::{check_lists, check_prices};
use position::{Position, Symbol};
use table::{Columns, Found, find};

// A query with prices.
#[tactic(auto, unfolding(crate::specs::Answers::query_answer))]
pub fn check_query(a: Account, symbols: &[u64], prices: &[i64]) -> Result<(), Answer>
    ensures { result ≡ checked (query_answer a symbols.now prices.now) }
{
    a.check_sound()?;
    check_prices(symbols, prices)
}

// The places of a record buffer of four words and eight numbers a record.
pub(crate) fn places(words: usize, ints: usize) -> usize
    ensures { result ≡ record_places words ints }
{
    (words / 4).min(ints / 8)
}

// Not "recording is on and the record buffer has under 64 places", or under those that a call asks for.
fn has_room(recording: bool, asked: usize, room: usize) -> bool
    ensures { result ≡ room_for recording asked room }
{
    !recording || asked <= room
}

// The targets that are not among the first n symbols: a sum, so that the loop has no branch. A target is likely held at its own place in the list.
fn count_not_held(key: &[u64; 64], n: usize, targets: &[u64]) -> usize
    ensures { Lacking key.now n targets.now result }
{
    let mut count = 0;
    for (i, target) in targets.iter().enumerate() {
        count += usize::from(matches!(find(key, n, *target, i), Found::Absent(_)));
    }
    count
}

// Not "held symbols (flat ones too) and target symbols together exceed 64".
fn has_places(symbol: &[u64; 64], n: usize, targets: &[u64]) -> bool
    requires { (n ≤ 64) × (length targets.now ≤ 64) }
    ensures { Rising (take n symbol.now) → result ≡ leb (n + lacking targets.now (take n symbol.now)) 64 }
{
    n + count_not_held(symbol, n, targets) <= 64
}

// In the order 11, then 6, 2, 3, 5, 4 for the lists, then 8 and 7.
#[tactic(auto, unfolding(crate::specs::Answers::rebalance_answer, crate::specs::Answers::has_room_of))]
pub(crate) fn check_rebalance(
    h: Ledger,
    columns: &Columns,
    targets: &[u64],
    weights: &[f64],
    symbols: &[u64],
    prices: &[i64],
    room: usize,
) -> Result<(), Answer>
    ensures { result ≡ checked (rebalance_answer (account_with h columns.now) targets.now weights.now symbols.now prices.now room) }
{
    if !sound_account(h, columns) {
        return Err(Answer::Unsound);
    }
    check_lists(targets, weights, symbols, prices)?;
    if !has_room(h.settings.recording, 64, room) {
        return Err(Answer::NoRecordRoom);
    }
    if !has_places(&columns.symbol, h.count, targets) {
        return Err(Answer::TooMany);
    }
    Ok(())
}

// The position of a symbol, flat where there is none.
#[tactic(auto, using(table::proofs::Posting::held_is_holding))]
pub(crate) fn holding_of(columns: &Columns, n: usize, s: u64) -> Position
    ensures { Ordered n columns.now → result ≡ holding s (rows n columns.now) }
{
    let f = find(&columns.symbol, n, s, 0);
    columns.held(f, s)
}

// "For closing, 8 asks for one place."
#[tactic(auto, unfolding(crate::specs::Answers::close_answer, crate::specs::Answers::has_room_of))]
pub(crate) fn check_close(
    h: Ledger,
    columns: &Columns,
    s: u64,
    price: i64,
    room: usize,
) -> Result<(), Answer>
    ensures { result ≡ checked (close_answer (account_with h columns.now) s price room) }
{
    whole_columns(*columns);
    if !sound_account(h, columns) {
        return Err(Answer::Unsound);
    }
    if !Symbol(s).is_good() {
        return Err(Answer::BadSymbol(Entry::Price(0)));
    }
    if price < 1 {
        return Err(Answer::BadPrice(Entry::Price(0)));
    }
    if !has_room(h.settings.recording, 1, room) {
        return Err(Answer::NoRecordRoom);
    }
    let p = holding_of(columns, h.count, s);
    if p.quantity.is_zero() {
        return Err(Answer::NotHeld);
    }
    Ok(())
}
