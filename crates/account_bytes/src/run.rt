// Values at places, and runs of them.
ghost use Rattle.std.specs.Prelude.{◌≡◌, map, ◌+◌, ◌≤◌, ◌/◌, length};
ghost use Rattle.std.proofs.lemmas.List.Edits.{sets};
ghost use Rattle.word_bytes.specs.Words.{words_of, word_at};
ghost use Rattle.account_bytes.specs.Sizes.{column_size, account_size};
ghost use Rattle.account_bytes.specs.Account.{column_at};

use word_bytes::{Stored, put_word, word_at};

// The value at place i.
pub(crate) fn value_at<T: Stored>(bytes: &[u8], i: usize) -> T
    ensures { result ≡ T.of_word (word_at bytes.now i) }
{
    T::from_word(word_at(bytes, i))
}

// A column of 64 values, from a place on. Of bytes that end with it each of its places has a word, and the loop compiles to one with no test of that.
pub(crate) fn read_column<T: Stored>(bytes: &[u8], from: usize, column: &mut [T; 64])
    requires { from + column_size ≤ length bytes.now / 8 }
    ensures { column.new ≡ column_at T.of_word from (words_of bytes.now) }
{
    // Kept: an index, since what `iter_mut` leaves in a column of a type parameter has no name in a proof.
    let part = &bytes[..8 * (from + 64)];
    for i in 0..64 {
        column[i] = value_at(part, from + i);
    }
}

// Words, from a place on.
pub(crate) fn put_words(bytes: &mut [u8], from: usize, words: &[u64])
    requires { from + length words.now ≤ account_size }
    ensures { words_of bytes.new ≡ sets (words_of bytes.old) from words.now }
{
    for (i, w) in words.iter().enumerate() {
        put_word(bytes, from + i, *w);
    }
}

// A column of values.
pub(crate) fn put_column<T: Stored>(bytes: &mut [u8], from: usize, column: &[T; 64])
    requires { from + column_size ≤ account_size }
    ensures { words_of bytes.new ≡ sets (words_of bytes.old) from (map T.word_of column.now) }
{
    for (i, x) in column.iter().enumerate() {
        put_word(bytes, from + i, x.to_word());
    }
}
