// The leaves on doubles.
use crate::row::{Row, float, int, same_bool, same_float, same_int};

pub(crate) fn agrees(r: Row) -> bool {
    let leaf = r.leaf;
    let x = float(r.a);
    match leaf {
        31 => same_bool(doubles::is_finite(x), r.answer),
        32 => same_int(doubles::to_i64(x), r.answer),
        33 => same_float(doubles::i64_to_f64(int(r.a)), r.answer),
        34 => same_float(doubles::u64_to_f64(r.a), r.answer),
        35 => same_float(doubles::round(x), r.answer),
        36 => same_int(doubles::round_to_i64(x), r.answer),
        _ => false,
    }
}
