// "i64 to f64 rounds to nearest, ties to even, u64 likewise. f64 to i64 truncates, saturates, and gives 0 for NaN."
ghost use Rattle.std.specs.Prelude.{◌≡◌};
ghost use Rattle.doubles.specs.Doubles.{finite, to_i64, of_i64, of_u64, round_away};

#[unsafe(no_mangle)]
pub extern "C" fn tc_is_finite(x: f64) -> bool
    ensures { result ≡ finite x }
{
    doubles::is_finite(x)
}

#[unsafe(no_mangle)]
pub extern "C" fn tc_to_i64(x: f64) -> i64
    ensures { result ≡ to_i64 x }
{
    doubles::to_i64(x)
}

#[unsafe(no_mangle)]
pub extern "C" fn tc_i64_to_f64(n: i64) -> f64
    ensures { result ≡ of_i64 n }
{
    doubles::i64_to_f64(n)
}

#[unsafe(no_mangle)]
pub extern "C" fn tc_u64_to_f64(n: u64) -> f64
    ensures { result ≡ of_u64 n }
{
    doubles::u64_to_f64(n)
}

// "`round` takes halves away from zero."
#[unsafe(no_mangle)]
pub extern "C" fn tc_round(x: f64) -> f64
    ensures { result ≡ round_away x }
{
    doubles::round(x)
}

#[unsafe(no_mangle)]
pub extern "C" fn tc_round_to_i64(x: f64) -> i64
    ensures { result ≡ to_i64 (round_away x) }
{
    doubles::round_to_i64(x)
}
