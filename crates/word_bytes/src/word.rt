// The words of a run of bytes, by their places.
ghost use Rattle.std.specs.Prelude.{◌≡◌};
ghost use Rattle.word_bytes.specs.Words.{word_at, put_word};

// The word at place i; 0 where the bytes end before it does.
pub fn word_at(bytes: &[u8], i: usize) -> u64
    ensures { result ≡ word_at bytes.now i }
{
    match bytes.as_chunks::<8>().0.get(i) {
        Some(eight) => u64::from_le_bytes(*eight),
        None => 0,
    }
}

// w as the word at place i. All other bytes stay; where it does not fit, all do.
pub fn put_word(bytes: &mut [u8], i: usize, w: u64)
    ensures { bytes.new ≡ put_word bytes.old i w }
{
    if i < bytes.len() / 8 {
        bytes[8 * i..8 * i + 8].copy_from_slice(&w.to_le_bytes());
    }
}
