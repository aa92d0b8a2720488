// "Products and quotients take two 64-bit words": here a word at a time, and the values that are made of them.
// Kept: a function for each word, as a C function answers one number.
ghost use Rattle.std.specs.Prelude.{◌≡◌, ◌*◌, ◌/◌};
ghost use Rattle.sums.specs.Sums.{value, price_at, snap};
ghost use Rattle.c_leaves.specs.Halves.{upper, lower, joined};

use sums::Wide;

#[unsafe(no_mangle)]
pub extern "C" fn tc_mul_high(a: u64, b: u64) -> u64
    ensures { result ≡ upper (a * b) }
{
    sums::mul_wide(a, b).hi
}

#[unsafe(no_mangle)]
pub extern "C" fn tc_mul_low(a: u64, b: u64) -> u64
    ensures { result ≡ lower (a * b) }
{
    sums::mul_wide(a, b).lo
}

// A divisor of 0 gives 0, here and below.
#[unsafe(no_mangle)]
pub extern "C" fn tc_div_high(high: u64, low: u64, divisor: u64) -> u64
    ensures { result ≡ upper (joined high low / divisor) }
{
    sums::div_wide(Wide { hi: high, lo: low }, divisor).hi
}

#[unsafe(no_mangle)]
pub extern "C" fn tc_div_low(high: u64, low: u64, divisor: u64) -> u64
    ensures { result ≡ lower (joined high low / divisor) }
{
    sums::div_wide(Wide { hi: high, lo: low }, divisor).lo
}

#[unsafe(no_mangle)]
pub extern "C" fn tc_snap_high(high: u64, low: u64, step: u64) -> u64
    ensures { result ≡ upper (snap (joined high low) step) }
{
    sums::snap_wide(Wide { hi: high, lo: low }, step).hi
}

#[unsafe(no_mangle)]
pub extern "C" fn tc_snap_low(high: u64, low: u64, step: u64) -> u64
    ensures { result ≡ lower (snap (joined high low) step) }
{
    sums::snap_wide(Wide { hi: high, lo: low }, step).lo
}

#[unsafe(no_mangle)]
pub extern "C" fn tc_value(quantity: i64, price: i64) -> i64
    ensures { result ≡ value quantity price }
{
    sums::value(quantity, price)
}

#[unsafe(no_mangle)]
pub extern "C" fn tc_price_at(cost: i64, quantity: i64) -> i64
    ensures { result ≡ price_at cost quantity }
{
    sums::price_at(cost, quantity)
}
