// The leaves on two words, and the values made of them.
use crate::row::{Row, int, same_int};
use sums::Wide;

fn words_agree(r: Row) -> bool {
    let leaf = r.leaf;
    let a = r.a;
    let b = r.b;
    let product = sums::mul_wide(a, b);
    let quotient = sums::div_wide(Wide { hi: a, lo: b }, r.c);
    let snapped = sums::snap_wide(Wide { hi: a, lo: b }, r.c);
    match leaf {
        11 => product.hi == r.answer,
        12 => product.lo == r.answer,
        13 => quotient.hi == r.answer,
        14 => quotient.lo == r.answer,
        15 => snapped.hi == r.answer,
        16 => snapped.lo == r.answer,
        _ => false,
    }
}

pub(crate) fn agrees(r: Row) -> bool {
    let leaf = r.leaf;
    let a = int(r.a);
    let b = int(r.b);
    match leaf {
        17 => same_int(sums::value(a, b), r.answer),
        18 => same_int(sums::price_at(a, b), r.answer),
        _ => words_agree(r),
    }
}
