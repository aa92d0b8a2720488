// The answers of document 01's table, those that document 02 adds, and the place that some of them tell.
#![tactic(auto)]

ghost use Rattle.std.specs.Prelude.{◌≡◌};
ghost use Rattle.answer.specs.Numbers.{number_of, is_done};
ghost use Rattle.answer.specs.Places.{above, entry_place, place_of, word_of};

// An entry of a call's lists: the list, and the index in it.
#[derive(Clone, Copy, PartialEq, Eq)]
pub enum Entry {
    Target(usize),
    Price(usize),
}

// Those of an entry tell it, and those of a file's bytes tell the byte.
// Kept: Done is one of them, and no Ok, as document 01's table has "0 done" among the answer numbers.
#[derive(Clone, Copy, PartialEq, Eq)]
pub enum Answer {
    Done,
    BadSetting,
    BadSymbol(Entry),
    Twice(Entry),
    BadPrice(Entry),
    BadWeight,
    TooLong,
    TooMany,
    NoRecordRoom,
    NotHeld,
    BufferFull,
    Unsound,
    BadSeries,
    BadGroup,
    NoFirstSum,
    OutOfRange,
    EndsEarly(usize),
    BadNumber(usize),
    LeftOver(usize),
    NoFileRoom,
}

// The number that the documents give an answer.
// Kept: a match, as these numbers are the table's and what C is told.
pub fn number(a: Answer) -> u64
    ensures { result ≡ number_of a }
{
    match a {
        Answer::Done => 0,
        Answer::BadSetting => 1,
        Answer::BadSymbol(_) => 2,
        Answer::Twice(_) => 3,
        Answer::BadPrice(_) => 4,
        Answer::BadWeight => 5,
        Answer::TooLong => 6,
        Answer::TooMany => 7,
        Answer::NoRecordRoom => 8,
        Answer::NotHeld => 9,
        Answer::BufferFull => 10,
        Answer::Unsound => 11,
        Answer::BadSeries => 12,
        Answer::BadGroup => 13,
        Answer::NoFirstSum => 14,
        Answer::OutOfRange => 15,
        Answer::EndsEarly(_) => 16,
        Answer::BadNumber(_) => 17,
        Answer::LeftOver(_) => 18,
        Answer::NoFileRoom => 19,
    }
}

pub fn is_done(a: Answer) -> bool
    ensures { result ≡ is_done a }
{
    a == Answer::Done
}

// The place of an entry, above the lowest byte of a word.
fn entry_above(e: Entry) -> u64
    ensures { result ≡ above (entry_place e) }
{
    match e {
        Entry::Target(i) => (i as u64) << 9,
        Entry::Price(i) => ((i as u64) << 9) + 256,
    }
}

// The place that an answer tells, above the lowest byte of a word.
fn place_above(a: Answer) -> u64
    ensures { result ≡ above (place_of a) }
{
    match a {
        Answer::BadSymbol(e) | Answer::Twice(e) | Answer::BadPrice(e) => entry_above(e),
        Answer::EndsEarly(at) | Answer::BadNumber(at) | Answer::LeftOver(at) => (at as u64) << 8,
        _ => 0,
    }
}

// An answer as one word: its number, and its place above.
pub fn word(a: Answer) -> u64
    ensures { result ≡ word_of a }
{
    number(a) + place_above(a)
}
