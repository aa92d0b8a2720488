// Exact signed sums in two words. A number is raised by 2^63, so that all words are unsigned and a sum's carry is all that is kept of it.
ghost use Rattle.std.specs.Prelude.{◌≡◌, ◌+◌, ◌^◌, ◌<◌, ◌≤◌};
ghost use Rattle.sums.specs.Wide.{value_of, wide};
ghost use Rattle.house.specs.Inner.Raised.{raised, lowered, begun, ended};

use sums::Wide;

pub(crate) const HALF: u64 = 0x8000_0000_0000_0000;

// As words 2^63 added modulo 2^64 raises a number, and lowers it again.
pub(crate) fn raise(x: i64) -> u64
    ensures { result ≡ raised x }
{
    x.cast_unsigned().wrapping_add(HALF)
}

pub(crate) fn lower(w: u64) -> i64
    ensures { result ≡ lowered w }
{
    w.wrapping_add(HALF).cast_signed()
}

// The start of a sum of n numbers makes up for what they are raised by.
pub(crate) fn start(n: u64) -> Wide
    requires { n ≤ 64 }
    ensures { result ≡ wide (begun n) }
{
    Wide {
        hi: (n + 1) / 2,
        lo: (n + 1) % 2 * HALF,
    }
}

// "The low words are added modulo 2^64 and the carry kept": their sum passed the top exactly where it is below either of them.
pub(crate) fn plus(w: Wide, x: u64) -> Wide
    requires { w.hi < 2 ^ 32 }
    ensures { result ≡ wide (value_of w + x) }
{
    let lo = w.lo.wrapping_add(x);
    Wide {
        hi: w.hi + u64::from(lo < x),
        lo,
    }
}

// What a sum of n numbers has come to, where that is in i64.
pub(crate) fn finish(w: Wide, n: u64) -> Option<i64>
    ensures { result ≡ ended n (value_of w) }
{
    (w.hi == n).then_some(lower(w.lo))
}
