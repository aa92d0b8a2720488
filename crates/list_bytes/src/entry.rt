// Entries that are read: how many there are, and what stands in them. Each has two words, sixteen bytes: a symbol's text and a value.
ghost use Rattle.std.specs.Prelude.{◌≡◌};
ghost use Rattle.list_bytes.specs.Entries.{is_whole};
ghost use Rattle.list_bytes.specs.Inner.Entries.{count_of};
ghost use Rattle.list_bytes.specs.Inner.Lists.{entry_columns, entries_into, values_in};

use word_bytes::{Stored, symbol_at, word_at};

// Whether so many bytes are a whole number of entries, and no more than the bound.
pub fn is_whole(bytes: usize, most: usize) -> bool
    ensures { result ≡ is_whole most bytes }
{
    bytes % 16 == 0 && bytes / 16 <= most
}

// How many entries are read: none of a list that is not whole.
pub(crate) fn count_of(bytes: usize, most: usize) -> usize
    ensures { result ≡ count_of most bytes }
{
    if is_whole(bytes, most) { bytes / 16 } else { 0 }
}

// The entries into the first places of two columns, and how many there are. The rest is as found; of a list that is not whole nothing is read.
pub(crate) fn entries_into<T: Stored, const N: usize>(
    bytes: &[u8],
    symbol: &mut [u64; N],
    value: &mut [T; N],
) -> usize
    ensures { entry_columns result symbol.new value.new ≡ entries_into N bytes.now (values_in T.of_word bytes.now) symbol.old value.old }
{
    let count = count_of(bytes.len(), N);
    for i in 0..count {
        symbol[i] = symbol_at(bytes, 2 * i);
        value[i] = T::from_word(word_at(bytes, 2 * i + 1));
    }
    count
}
