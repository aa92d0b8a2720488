// What a word may stand for, as one trait: a symbol, a signed number, a double.
ghost use Rattle.std.specs.Prelude.{◌≡◌, ℕ};
ghost use Rattle.word_bytes.specs.Words.{turned};
ghost use Rattle.word_bytes.specs.Numbers.{signed_of, unsigned_of, float_of, pattern_of};

use crate::number::{float, pattern, signed, unsigned};
use crate::symbol::turned;

// A value that stands in bytes as one word.
pub trait Stored: Copy {
    ghost of_word: { ℕ → Self };

    ghost word_of: { Self → ℕ };

    fn from_word(w: u64) -> Self
        ensures { result ≡ of_word w };

    fn to_word(self) -> u64
        ensures { result ≡ word_of self };
}

// The number of a symbol, whose word is its text.
impl Stored for u64 {
    ghost of_word = { turned };

    ghost word_of = { turned };

    fn from_word(w: u64) -> u64 {
        turned(w)
    }

    fn to_word(self) -> u64 {
        turned(self)
    }
}

impl Stored for i64 {
    ghost of_word = { signed_of };

    ghost word_of = { unsigned_of };

    fn from_word(w: u64) -> i64 {
        signed(w)
    }

    fn to_word(self) -> u64 {
        unsigned(self)
    }
}

impl Stored for f64 {
    ghost of_word = { float_of };

    ghost word_of = { pattern_of };

    fn from_word(w: u64) -> f64 {
        float(w)
    }

    fn to_word(self) -> u64 {
        pattern(self)
    }
}
