// The leaves on positions: a symbol, then quantity, average, realized profit and total cost.
use crate::row::{Row, int, same_bool, same_int, shares};
use position::{Position, Symbol};

fn position_of(r: Row) -> Position {
    Position {
        symbol: Symbol(r.a),
        quantity: shares(r.b),
        avg_entry_price: int(r.c),
        realized_pnl: int(r.d),
        total_cost: int(r.e),
    }
}

fn fill_agrees(r: Row) -> bool {
    let leaf = r.leaf;
    let filled = position_of(r).apply_fill(shares(r.f), int(r.g));
    let given = filled.answer;
    let after = filled.position;
    let quantity = after.quantity;
    match leaf {
        55 => answer::number(given) == r.answer,
        56 => same_int(quantity.raw(), r.answer),
        57 => same_int(after.avg_entry_price, r.answer),
        58 => same_int(after.realized_pnl, r.answer),
        59 => same_int(after.total_cost, r.answer),
        _ => false,
    }
}

pub(crate) fn agrees(r: Row) -> bool {
    let leaf = r.leaf;
    match leaf {
        51 => same_bool(Symbol(r.a).is_good(), r.answer),
        52 => same_bool(position_of(r).is_sound(), r.answer),
        53 => same_int(position_of(r).market_value(int(r.g)), r.answer),
        54 => same_int(position_of(r).unrealized_pnl(int(r.g)), r.answer),
        _ => fill_agrees(r),
    }
}
