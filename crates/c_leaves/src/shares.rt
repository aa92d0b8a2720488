// "Share sums, negation and absolute value saturate": share counts as raw micro-shares.
ghost use Rattle.std.specs.Prelude.{◌≡◌, nat_abs};
ghost use Rattle.sums.specs.Sums.{sat_add, sat_sub, sat_neg, sat_abs};
ghost use Rattle.position.specs.Shares.{from_whole, to_f64, whole_shares};

use position::Shares;

#[unsafe(no_mangle)]
pub extern "C" fn tc_shares_add(a: i64, b: i64) -> i64
    ensures { result ≡ sat_add a b }
{
    Shares::from_raw(a).add(Shares::from_raw(b)).raw()
}

#[unsafe(no_mangle)]
pub extern "C" fn tc_shares_sub(a: i64, b: i64) -> i64
    ensures { result ≡ sat_sub a b }
{
    Shares::from_raw(a).sub(Shares::from_raw(b)).raw()
}

#[unsafe(no_mangle)]
pub extern "C" fn tc_shares_neg(a: i64) -> i64
    ensures { result ≡ sat_neg a }
{
    Shares::from_raw(a).neg().raw()
}

#[unsafe(no_mangle)]
pub extern "C" fn tc_shares_abs(a: i64) -> i64
    ensures { result ≡ sat_abs a }
{
    Shares::from_raw(a).abs().raw()
}

#[unsafe(no_mangle)]
pub extern "C" fn tc_shares_unsigned_abs(a: i64) -> u64
    ensures { result ≡ nat_abs a }
{
    Shares::from_raw(a).unsigned_abs()
}

// "`from_whole` saturates here": the Rust's wraps.
#[unsafe(no_mangle)]
pub extern "C" fn tc_shares_from_whole(n: i64) -> i64
    ensures { result ≡ from_whole n }
{
    Shares::from_whole(n).raw()
}

#[unsafe(no_mangle)]
pub extern "C" fn tc_shares_whole(a: i64) -> i64
    ensures { result ≡ whole_shares a }
{
    Shares::from_raw(a).whole()
}

#[unsafe(no_mangle)]
pub extern "C" fn tc_shares_to_f64(a: i64) -> f64
    ensures { result ≡ to_f64 a }
{
    Shares::from_raw(a).to_f64()
}
