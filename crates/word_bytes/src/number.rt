// What a word stands for.
ghost use Rattle.std.specs.Prelude.{◌≡◌};
ghost use Rattle.word_bytes.specs.Numbers.{signed_of, unsigned_of, float_of, pattern_of};

// Two's complement.
pub fn signed(w: u64) -> i64
    ensures { result ≡ signed_of w }
{
    w.cast_signed()
}

pub fn unsigned(n: i64) -> u64
    ensures { result ≡ unsigned_of n }
{
    n.cast_unsigned()
}

// The double of a pattern. Above the infinities' patterns, sign aside, all are the one NaN.
pub fn float(w: u64) -> f64
    ensures { result ≡ float_of w }
{
    if 0x7ff0_0000_0000_0000 < w % 0x8000_0000_0000_0000 {
        f64::NAN
    } else {
        f64::from_bits(w)
    }
}

// The pattern of a double. A NaN's own pattern may be any, and one is written for all.
pub fn pattern(x: f64) -> u64
    ensures { result ≡ pattern_of x }
{
    if x.is_nan() {
        return 0x7ff8_0000_0000_0000;
    }
    f64::to_bits(x)
}
