// A row in words of 64 bits. Head: the call, its answer number, four inputs, the counts of targets, of prices and of records or weights, four numbers
// told, and how many places are lent. Then eight targets and eight prices of two words, eight records of twelve or as many weights of two, and the
// account after the call (state.rt).
ghost use Rattle.std.specs.Prelude.{◌≤◌};

use list_bytes::{Prices, Targets, read_prices, read_targets};
use word_bytes::word_at;

#[derive(Clone, Copy)]
pub(crate) struct Row {
    pub head: [u8; 128],
    pub targets: [u8; 128],
    pub prices: [u8; 128],
    pub made: [u8; 768],
}

pub(crate) fn head(r: Row, i: usize) -> u64 {
    word_at(&r.head[..], i)
}

// The lists of a row are whole.
pub(crate) fn targets_of(r: Row) -> Targets {
    match read_targets(&r.targets) {
        Some(targets) => targets,
        None => Targets {
            count: 0,
            symbol: [0; 64],
            weight: [0.0; 64],
        },
    }
}

pub(crate) fn prices_of(r: Row) -> Prices {
    match read_prices(&r.prices) {
        Some(prices) => prices,
        None => Prices {
            count: 0,
            symbol: [0; 128],
            price: [0; 128],
        },
    }
}

// Whether both have the same first n words.
fn same_words(made: &[u8], bytes: &[u8], n: usize) -> bool {
    (0..n).all(|k| word_at(bytes, k) == word_at(made, k))
}

// The answer's number, how many records or weights there are, and their words.
pub(crate) fn same_made(r: Row, number: u64, count: usize, bytes: &[u8], words: usize) -> bool {
    if head(r, 1) != number || head(r, 8) != count as u64 {
        return false;
    }
    same_words(&r.made[..], bytes, words)
}

// The answer's number, and up to four numbers told.
pub(crate) fn same_told(r: Row, number: u64, a: u64, b: u64, c: u64, d: u64) -> bool {
    head(r, 1) == number
        && head(r, 9) == a
        && head(r, 10) == b
        && head(r, 11) == c
        && head(r, 12) == d
}

// A count of entries of two columns; none where a column is shorter.
pub(crate) fn within(n: usize, a: usize, b: usize) -> usize
    ensures { (result ≤ a) × (result ≤ b) }
{
    if n <= a && n <= b {
        return n;
    }
    0
}
