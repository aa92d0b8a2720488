// The numbers before the positions.
ghost use Rattle.std.specs.Prelude.{◌≡◌};
ghost use Rattle.loading.specs.Reading.{head_read_of, head_or_fault};

use crate::number::fields_at;
use saved_form::{HEAD_FIELDS, POSITION_COUNT};
use seven_bit::Fault;

// All of them, and where they ended. The last one, how many positions follow, also stands by itself.
#[derive(Clone, Copy)]
pub(crate) struct Head {
    pub(crate) next: usize,
    pub(crate) count: u64,
    pub(crate) values: [u64; HEAD_FIELDS],
}

pub(crate) fn head_at(bytes: &[u8], form: u64, place: usize) -> Result<Head, Fault>
    ensures { result ≡ head_or_fault (head_read_of bytes.now form place) }
{
    let mut values = [0u64; HEAD_FIELDS];
    let next = fields_at(bytes, place, form, 0, &mut values)?;
    Ok(Head {
        next,
        count: values[POSITION_COUNT],
        values,
    })
}
