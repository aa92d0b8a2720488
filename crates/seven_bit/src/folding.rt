// Signed numbers as unsigned ones.
ghost use Rattle.std.specs.Prelude.{◌≡◌};
ghost use Rattle.seven_bit.specs.Signed as Signed;

// Below 0, -2n-1 is twice the complement and 1: in range for -2^63 too.
pub fn folded(n: i64) -> u64
    ensures { result ≡ Signed.folded n }
{
    if n < 0 {
        2 * (!n) as u64 + 1
    } else {
        2 * n as u64
    }
}

pub fn unfolded(w: u64) -> i64
    ensures { result ≡ Signed.unfolded w }
{
    let k = (w / 2) as i64;
    if w % 2 == 0 { k } else { !k }
}
