// One position of the file.
ghost use Rattle.std.specs.Prelude.{◌≡◌};
ghost use Rattle.loading.specs.Reading.{position_read, entry_or_fault};

use crate::number::fields_at;
use crate::text::symbol_at;
use position::{Position, Shares, Symbol};
use saved_form::{HEAD_FIELDS, POSITION_FIELDS};
use seven_bit::{Fault, unfolded};

// A position, and where the next one starts.
#[derive(Clone, Copy)]
pub(crate) struct Entry {
    pub(crate) next: usize,
    pub(crate) position: Position,
}

pub(crate) fn position_at(bytes: &[u8], form: u64, place: usize) -> Result<Entry, Fault>
    ensures { result ≡ entry_or_fault (position_read bytes.now form place) }
{
    let symbol = symbol_at(bytes, place)?;
    let mut numbers = [0u64; POSITION_FIELDS];
    let next = fields_at(bytes, symbol.next, form, HEAD_FIELDS, &mut numbers)?;
    let position = Position {
        symbol: Symbol(symbol.value),
        quantity: Shares::from_raw(unfolded(numbers[0])),
        avg_entry_price: unfolded(numbers[1]),
        realized_pnl: unfolded(numbers[2]),
        total_cost: unfolded(numbers[3]),
    };
    Ok(Entry { next, position })
}
