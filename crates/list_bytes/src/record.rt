// Records as bytes: twelve words each, 96 bytes.
ghost use Rattle.std.specs.Prelude.{◌≡◌, ◌+◌, ◌*◌, ◌≤◌, length};
ghost use Rattle.list_bytes.specs.Entries.{at_places_of};
ghost use Rattle.list_bytes.specs.Inner.Records.{four_at, int_at, written_records, put_all};

use word_bytes::{put_symbol, put_word, unsigned};

// The four words of the record at place i, the last of which is its symbol.
fn put_words(words: &[u64], i: usize, out: &mut [u8])
    requires { (4 * i + 4 ≤ length words.now) × (96 * i + 96 ≤ length out.old) }
    ensures { out.new ≡ put_all out.old (12 * i) (four_at words.now i) }
{
    let at = 12 * i;
    let from = 4 * i;
    put_word(out, at, words[from]);
    put_word(out, at + 1, words[from + 1]);
    put_word(out, at + 2, words[from + 2]);
    put_symbol(out, at + 3, words[from + 3]);
}

// Its eight signed numbers, after them.
fn put_ints(ints: &[i64], i: usize, out: &mut [u8])
    requires { (8 * i + 8 ≤ length ints.now) × (96 * i + 96 ≤ length out.old) }
    ensures { out.new ≡ put_all out.old (12 * i + 4) (at_places_of 8 (int_at ints.now i)) }
{
    for j in 0..8 {
        put_word(out, 12 * i + 4 + j, unsigned(ints[8 * i + j]));
    }
}

// Writes the first records of number slices, as many as `count` and all three slices allow. "the rest are as found".
pub fn write_records(words: &[u64], ints: &[i64], count: usize, out: &mut [u8])
    ensures { out.new ≡ written_records words.now ints.now count out.old }
{
    let held = (words.len() / 4).min(ints.len() / 8);
    for i in 0..count.min(held.min(out.len() / 96)) {
        put_words(words, i, out);
        put_ints(ints, i, out);
    }
}
