// Sums on 64-bit words: document 01, 'Sums'. Every public function is total and says by one equation what it answers.
#![tactic(auto)]

ghost use Rattle.std.specs.Prelude.{◌≡◌, ◌+◌, ◌*◌, ◌/◌, ◌%◌, ◌^◌, ◌<◌, ◌≤◌, min, pos, int_div, unsigned_abs};
ghost use Rattle.std.specs.Int.Signed.{non_neg};
ghost use Rattle.std.specs.Bool.{xor};
ghost use Rattle.sums.specs.Sums.{clamp64, sat_add, sat_sub, sat_neg, sat_abs, value, notional, price_at, signed, snap, SCALE};
ghost use Rattle.sums.specs.Wide.{value_of, wide};

pub const MAX: i64 = i64::MAX;

pub const MIN: i64 = i64::MIN;

// "SCALE is 1,000,000."
pub const SCALE: u64 = 1000000;

// Two 64-bit words, the upper one first.
// Kept: no u128, as document 01 says "Products and quotients take two 64-bit words".
#[derive(Clone, Copy)]
pub struct Wide {
    pub hi: u64,
    pub lo: u64,
}

// The magnitude of x, exact for the lowest number too, whose magnitude is no i64.
pub fn unsigned_abs(x: i64) -> u64
    ensures { result ≡ unsigned_abs x }
{
    x.unsigned_abs()
}

// "Share sums, negation and absolute value saturate": here and in the three after it.
pub fn saturating_add(a: i64, b: i64) -> i64
    ensures { result ≡ sat_add a b }
{
    a.saturating_add(b)
}

pub fn saturating_sub(a: i64, b: i64) -> i64
    ensures { result ≡ sat_sub a b }
{
    a.saturating_sub(b)
}

// The lowest number has no negative among the i64.
pub fn saturating_neg(a: i64) -> i64
    ensures { result ≡ sat_neg a }
{
    0i64.saturating_sub(a)
}

// Kept: the library saturates no absolute value of an i64.
pub fn saturating_abs(a: i64) -> i64
    ensures { result ≡ sat_abs a }
{
    if a < 0 { saturating_neg(a) } else { a }
}

// w and a middle product, which stands half a word higher. "The low words are added modulo 2^64 and the carry kept": their sum
// passed the top exactly where it is below either of them.
// Kept: no `overflowing_add`, as document 01 wants "Wrapping add on low words of partial products; carry found by comparison."
fn plus_middle(w: Wide, middle: u64) -> Wide
    requires { w.hi + middle / 2 ^ 32 + 1 < 2 ^ 64 }
    ensures { (result ≡ wide (value_of w + middle * 2 ^ 32)) × (result.hi ≤ w.hi + middle / 2 ^ 32 + 1) }
{
    let low = (middle % 0x1_0000_0000) * 0x1_0000_0000;
    let hi = w.hi + middle / 0x1_0000_0000;
    let lo = w.lo.wrapping_add(low);
    if lo < low {
        Wide { hi: hi + 1, lo }
    } else {
        Wide { hi, lo }
    }
}

// a * b, exactly, by 32-bit partial products. Where b and its product with a's upper half are below 2^31, neither that product, half a
// word higher, nor the lower half's reaches 2^63, so one word takes their sum.
pub fn mul_wide(a: u64, b: u64) -> Wide
    ensures { result ≡ wide (a * b) }
{
    if b < 0x8000_0000 && (a / 0x1_0000_0000) * b < 0x8000_0000 {
        return Wide { hi: 0, lo: a * b };
    }
    let a0 = a % 0x1_0000_0000;
    let a1 = a / 0x1_0000_0000;
    let b0 = b % 0x1_0000_0000;
    let b1 = b / 0x1_0000_0000;
    let ends = Wide {
        hi: a1 * b1,
        lo: a0 * b0,
    };
    plus_middle(plus_middle(ends, a1 * b0), a0 * b1)
}

#[derive(Clone, Copy)]
struct Quotient {
    quotient: u64,
    rest: u64,
}

// r * 2^64 + n by d, a bit at a time, for r below d. 2 * rest + bit is at least d where rest + bit is at least d - rest, and
// neither of those wraps.
fn div_word(r: u64, n: u64, d: u64) -> Quotient
    requires { r < d }
    ensures { (result.quotient * d + result.rest ≡ r * 2 ^ 64 + n) × (result.rest < d) }
{
    let mut quotient = 0u64;
    let mut rest = r;
    for k in 0..64u64 {
        let next = rest + (n >> (63 - k)) % 2;
        let room = d - rest;
        if next >= room {
            rest = next - room;
            quotient = quotient + quotient + 1;
        } else {
            rest = next + rest;
            quotient = quotient + quotient;
        }
    }
    Quotient { quotient, rest }
}

// By bits, for a divisor of any size.
fn div_bits(n: Wide, d: u64) -> Wide
    requires { 0 < d }
    ensures { result ≡ wide (value_of n / d) }
{
    let low = div_word(n.hi % d, n.lo, d);
    Wide {
        hi: n.hi / d,
        lo: low.quotient,
    }
}

// By 32-bit digits, for a divisor of one digit.
fn div_digits(n: Wide, d: u64) -> Wide
    requires { (0 < d) × (d < 2 ^ 32) }
    ensures { result ≡ wide (value_of n / d) }
{
    let upper = (n.hi % d) * 0x1_0000_0000 + n.lo / 0x1_0000_0000;
    let lower = (upper % d) * 0x1_0000_0000 + n.lo % 0x1_0000_0000;
    Wide {
        hi: n.hi / d,
        lo: (upper / d) * 0x1_0000_0000 + lower / d,
    }
}

// n / d, truncated. The quotient by 0 is 0, as it is among the whole numbers of the definitions.
pub fn div_wide(n: Wide, d: u64) -> Wide
    ensures { result ≡ wide (value_of n / d) }
{
    if d == 0 {
        return Wide { hi: 0, lo: 0 };
    }
    if n.hi == 0 {
        return Wide {
            hi: 0,
            lo: n.lo / d,
        };
    }
    if d < 0x1_0000_0000 {
        return div_digits(n, d);
    }
    div_bits(n, d)
}

// "Snapped toward zero to the step", both words of it, before any clamp. A step of 0 leaves nothing.
pub fn snap_wide(n: Wide, step: u64) -> Wide
    ensures { result ≡ wide (snap (value_of n) step) }
{
    if step == 1 {
        return n;
    }
    let steps = div_wide(n, step);
    let low = mul_wide(steps.lo, step);
    Wide {
        hi: low.hi + steps.hi * step,
        lo: low.lo,
    }
}

fn low_or_top(n: Wide) -> u64
    ensures { result ≡ min (value_of n) 18446744073709551615 }
{
    if n.hi == 0 { n.lo } else { u64::MAX }
}

// A magnitude with a sign, "clamped to i64".
pub fn clamped(negative: bool, n: Wide) -> i64
    ensures { result ≡ clamp64 (signed negative (value_of n)) }
{
    let low = low_or_top(n);
    if low < 0x8000_0000_0000_0000 {
        let x = low as i64;
        if negative { -x } else { x }
    } else if negative {
        MIN
    } else {
        MAX
    }
}

// Whether a product or a quotient of the two has a minus sign; of a zero either answer will do.
fn opposite(a: i64, b: i64) -> bool
    ensures { result ≡ xor (non_neg a) (non_neg b) }
{
    (a < 0) != (b < 0)
}

// A step of the quotient by SCALE, by 32-bit digits: what is carried from the digits above, and the digit below it. Kept: SCALE is a number
// here and not an argument, so that a 64-bit processor is given a product and shifts.
fn scale_digit(carried: u64, digit: u64) -> Quotient
    requires { (carried < 2 ^ 32) × (digit < 2 ^ 32) }
    ensures { (result.quotient ≡ (carried * 2 ^ 32 + digit) / SCALE) × (result.rest ≡ (carried * 2 ^ 32 + digit) % SCALE) }
{
    let n = carried * 0x1_0000_0000 + digit;
    Quotient {
        quotient: n / SCALE,
        rest: n % SCALE,
    }
}

// A word by itself. Nothing stands above its first digit, which is carried as it is: one step takes both.
fn scale_word(n: u64) -> Quotient
    ensures { (result.quotient ≡ n / SCALE) × (result.rest ≡ n % SCALE) }
{
    scale_digit(n / 0x1_0000_0000, n % 0x1_0000_0000)
}

// Document 02: "Divide by the fixed 1,000,000 in 32-bit digits instead, with remainders carried."
fn scale_wide(n: Wide) -> Wide
    ensures { result ≡ wide (value_of n / SCALE) }
{
    let upper = scale_word(n.hi);
    let middle = scale_digit(upper.rest, n.lo / 0x1_0000_0000);
    let lower = scale_digit(middle.rest, n.lo % 0x1_0000_0000);
    Wide {
        hi: upper.quotient,
        lo: middle.quotient * 0x1_0000_0000 + lower.quotient,
    }
}

// The exact product over SCALE. Most products take one word, and then so does their quotient.
fn scaled(q: u64, p: u64) -> Wide
    ensures { result ≡ wide (q * p / SCALE) }
{
    let product = mul_wide(q, p);
    if product.hi == 0 {
        return Wide {
            hi: 0,
            lo: scale_word(product.lo).quotient,
        };
    }
    scale_wide(product)
}

// "A value is quantity times price over SCALE, exact product, truncated toward zero, clamped to i64."
pub fn value(quantity: i64, price: i64) -> i64
    ensures { result ≡ value quantity price }
{
    let amount = scaled(unsigned_abs(quantity), unsigned_abs(price));
    clamped(opposite(quantity, price), amount)
}

// The value of the magnitudes.
pub fn magnitude(quantity: i64, price: i64) -> i64
    ensures { result ≡ notional quantity price }
{
    clamped(false, scaled(unsigned_abs(quantity), unsigned_abs(price)))
}

// The whole units in n millionths, truncated toward zero.
pub fn whole(n: i64) -> i64
    ensures { result ≡ int_div n (pos SCALE) }
{
    clamped(
        n < 0,
        Wide {
            hi: 0,
            lo: scale_word(unsigned_abs(n)).quotient,
        },
    )
}

// The price at which the quantity has this value, truncated toward zero and clamped; 0 for quantity 0.
pub fn price_at(value: i64, quantity: i64) -> i64
    ensures { result ≡ price_at value quantity }
{
    let total = mul_wide(unsigned_abs(value), SCALE);
    clamped(
        opposite(value, quantity),
        div_wide(total, unsigned_abs(quantity)),
    )
}
