// Symbols as text: eight bytes in reading order, padded with zeros.
ghost use Rattle.std.specs.Prelude.{◌≡◌};
ghost use Rattle.word_bytes.specs.Words.{turned, symbol_at, put_symbol};

use crate::word::{put_word, word_at};

// A word with its bytes in the other order: of a symbol's text its number, and of its number the text.
pub(crate) fn turned(w: u64) -> u64
    ensures { result ≡ turned w }
{
    w.swap_bytes()
}

// The number of the symbol whose text stands at place i; 0 where the bytes end before it does.
pub fn symbol_at(bytes: &[u8], i: usize) -> u64
    ensures { result ≡ symbol_at bytes.now i }
{
    turned(word_at(bytes, i))
}

// A symbol's text at place i, its highest byte first. All other bytes stay; where it does not fit, all do.
pub fn put_symbol(bytes: &mut [u8], i: usize, s: u64)
    ensures { bytes.new ≡ put_symbol bytes.old i s }
{
    put_word(bytes, i, turned(s));
}
