// One number of the file, and numbers in a row.
ghost use Rattle.std.specs.Prelude.{◌≡◌, ◌+◌, ◌<◌, ◌^◌, length};
ghost use Rattle.std.proofs.lemmas.List.Edits.{sets};
ghost use Rattle.seven_bit.specs.Placed.{number_or_fault};
ghost use Rattle.saved_form.specs.Fields.{field_at};
ghost use Rattle.saved_form.specs.Inner.Fields.{fields_from};
ghost use Rattle.loading.specs.Reading.{field_read, fields_read_of};
ghost use Rattle.loading.specs.Inner.Reading.{reached};

use answer::Answer;
use saved_form::{allows, nth_field, stands};
use seven_bit::{Fault, Number, number_at};

// The number of a field after the one before it; 0 where the form has none there.
fn field_at(bytes: &[u8], place: usize, form: u64, i: usize, before: u64) -> Result<Number, Fault>
    ensures { result ≡ number_or_fault (field_read bytes.now form (field_at i) before place) }
{
    let field = nth_field(i);
    if !stands(form, field, before) {
        return Ok(Number {
            value: 0,
            next: place,
        });
    }
    let number = number_at(bytes, place)?;
    if !allows(field.kind, number.value) {
        return Err(Fault {
            answer: Answer::Unsound,
            place,
        });
    }
    Ok(number)
}

// As many fields as there are places for, from one on, and the place after them. It stops at the first fault.
pub(crate) fn fields_at(
    bytes: &[u8],
    place: usize,
    form: u64,
    first: usize,
    out: &mut [u64],
) -> Result<usize, Fault>
    requires { first + length out.old < 2 ^ 64 }
    ensures { let run = fields_read_of bytes.now form (fields_from first (length out.old)) 0 place in
        (result ≡ reached run) × (out.new ≡ sets out.old 0 run.values) }
{
    let mut at = place;
    let mut before = 0;
    for (i, value) in out.iter_mut().enumerate() {
        let number = field_at(bytes, at, form, first + i, before)?;
        *value = number.value;
        before = number.value;
        at = number.next;
    }
    Ok(at)
}
