// Casts and rounding of binary64, for every input, from a double's sign, exponent and fraction fields; and the tests for finite.
// Kept: no cast and no rounding of the library, as document 01 wants "Shifts and masks on the f64 bit pattern for rounding, truncation and
// saturating casts."
#![tactic(auto)]

ghost use Rattle.std.specs.Prelude.{◌≡◌, ◌^◌, ◌<◌, ◌+◌};
ghost use Rattle.std.specs.Float.Ieee.Nearest.{closest};
ghost use Rattle.doubles.specs.Fields.{exponent_of, fraction_of, whole_of, nearest_of, signed_size};
ghost use Rattle.doubles.specs.Doubles.{finite, all_finite, to_i64, of_i64, of_u64, round_away};

// The eleven bits between the sign and the fraction.
fn exponent(bits: u64) -> u64
    ensures { result ≡ exponent_of bits }
{
    (bits >> 52) & 0x7ff
}

// The fraction's 52 bits with the leading digit above them, which an exponent field above 0 implies.
fn significand(bits: u64) -> u64
    ensures { result ≡ 2 ^ 52 + fraction_of bits }
{
    (bits & 0xf_ffff_ffff_ffff) | 0x10_0000_0000_0000
}

// Whether x is neither an infinity nor a NaN.
pub fn is_finite(x: f64) -> bool
    ensures { result ≡ finite x }
{
    x.is_finite()
}

// Whether every double of a list is. The loop has no way out, so that it compiles to vector steps.
pub fn all_finite(xs: &[f64]) -> bool
    ensures { result ≡ all_finite xs.now }
{
    let mut finite = true;
    for x in xs {
        finite &= is_finite(*x);
    }
    finite
}

// The size of the pattern's value cut to a whole number; from 2^63 on, infinities included, 2^63.
fn whole_part(bits: u64) -> u64
    ensures { result ≡ whole_of bits }
{
    let e = exponent(bits);
    if e < 1023 {
        return 0;
    }
    if e >= 1086 {
        return 0x8000_0000_0000_0000;
    }
    let digits = significand(bits);
    if e < 1075 {
        return digits >> (1075 - e);
    }
    digits << (e - 1075)
}

// The number of that sign and size, held to i64's range.
fn signed(negative: bool, size: u64) -> i64
    ensures { result ≡ signed_size negative size }
{
    if size < 0x8000_0000_0000_0000 {
        let n = size as i64;
        if negative { -n } else { n }
    } else if negative {
        i64::MIN
    } else {
        i64::MAX
    }
}

// "f64 to i64 truncates, saturates, and gives 0 for NaN."
pub fn to_i64(x: f64) -> i64
    ensures { result ≡ to_i64 x }
{
    if x.is_nan() {
        return 0; // a NaN has no size
    }
    let bits = x.to_bits();
    signed(bits >> 63 == 1, whole_part(bits))
}

// n over 2^k, to the nearest whole number, a tie to the even one.
fn shifted_to_even(n: u64, k: u32) -> u64
    requires { (0 < k) × (k < 64) }
    ensures { result ≡ closest n (2 ^ k) }
{
    let kept = n >> k;
    let rest = n & ((1u64 << k) - 1);
    let half = 1u64 << (k - 1);
    if rest < half {
        return kept;
    }
    if rest > half {
        return kept + 1;
    }
    kept + (kept & 1)
}

// "i64 to f64 rounds to nearest, ties to even, u64 likewise." Below 2^53 the cast is exact.
pub fn u64_to_f64(n: u64) -> f64
    ensures { result ≡ of_u64 n }
{
    if n < 0x20_0000_0000_0000 {
        return n as f64;
    }
    let k = 11 - n.leading_zeros();
    // The leading digit adds one to the exponent's field, and a carry out of the fraction another.
    f64::from_bits(((k as u64 + 1074) << 52) + shifted_to_even(n, k))
}

// The double nearest to n, with n's sign.
pub fn i64_to_f64(n: i64) -> f64
    ensures { result ≡ of_i64 n }
{
    if n >= 0 {
        return u64_to_f64(n as u64);
    }
    -u64_to_f64(n.unsigned_abs())
}

// The size of a pattern below 2^52, to the nearest whole number, a half upward.
fn nearest_whole(bits: u64) -> u64
    requires { exponent_of bits < 1075 }
    ensures { result ≡ nearest_of bits }
{
    let e = exponent(bits);
    if e < 1022 {
        return 0;
    }
    let digits = significand(bits);
    let half = 1u64 << (1074 - e);
    (digits + half) >> (1075 - e)
}

// "`round` takes halves away from zero": the nearest whole number with x's sign, at a zero too.
pub fn round(x: f64) -> f64
    ensures { result ≡ round_away x }
{
    if x.is_nan() {
        return x;
    }
    let bits = x.to_bits();
    // From 2^52 on every double is a whole number.
    if exponent(bits) >= 1075 {
        return x;
    }
    let size = nearest_whole(bits) as f64;
    if bits >> 63 == 1 {
        return -size;
    }
    size
}

// `to_i64` of `round`, without the double in between.
pub fn round_to_i64(x: f64) -> i64
    ensures { result ≡ to_i64 (round_away x) }
{
    if x.is_nan() {
        return 0;
    }
    let bits = x.to_bits();
    if exponent(bits) < 1075 {
        return signed(bits >> 63 == 1, nearest_whole(bits));
    }
    to_i64(x)
}
