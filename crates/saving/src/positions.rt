// The positions of an account.
ghost use Rattle.std.specs.Prelude.{◌+◌, ◌*◌, ◌≤◌, length};
ghost use Rattle.table.specs.Rows.{cols, rows, Full};
ghost use Rattle.saved_form.specs.Writing.{position_file, positions_file};
ghost use Rattle.saving.specs.Inner.Putting.{Put};

use crate::fields::put_fields;
use crate::text::put_symbol;
use position::Position;
use saved_form::HEAD_FIELDS;
use seven_bit::folded;
use table::{Columns, Found};

// "each in `Position`'s field order"
fn put_position(bytes: &mut [u8], place: usize, p: Position) -> usize
    requires { place + 58 ≤ length bytes.old }
    ensures { Put bytes.old place (position_file p) bytes.new result }
{
    let values = [
        folded(p.quantity.raw()),
        folded(p.avg_entry_price),
        folded(p.realized_pnl),
        folded(p.total_cost),
    ];
    let at = put_symbol(bytes, place, p.symbol.0);
    put_fields(bytes, at, HEAD_FIELDS, &values[..])
}

// The positions at the first n places of five columns.
pub(crate) fn put_positions<'a>(
    bytes: &mut [u8],
    place: usize,
    columns: &'a Columns,
    n: usize,
) -> usize
    requires { (n ≤ 64) × (place + 58 * n ≤ length bytes.old) × (Full columns.now) }
    ensures { Put bytes.old place (positions_file (rows n columns.now)) bytes.new result }
{
    let mut at = place;
    for i in 0..n {
        let position = columns.held(Found::At(i), 0);
        at = put_position(bytes, at, position);
    }
    at
}
