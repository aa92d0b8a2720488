// The leaves on share counts.
use crate::row::{Row, same_float, same_int, shares};
use position::Shares;

pub(crate) fn agrees(r: Row) -> bool {
    let leaf = r.leaf;
    let a = shares(r.a);
    let b = shares(r.b);
    match leaf {
        1 => same_int(a.add(b).raw(), r.answer),
        2 => same_int(a.sub(b).raw(), r.answer),
        3 => same_int(a.neg().raw(), r.answer),
        4 => same_int(a.abs().raw(), r.answer),
        5 => a.unsigned_abs() == r.answer,
        6 => same_int(Shares::from_whole(a.raw()).raw(), r.answer),
        7 => same_int(a.whole(), r.answer),
        8 => same_float(a.to_f64(), r.answer),
        _ => false,
    }
}
