// Numbers of the file, one and in a row, from a place on. Each function returns the place after what it wrote.
ghost use Rattle.std.specs.Prelude.{◌+◌, ◌*◌, ◌≤◌, ◌<◌, ◌^◌, length};
ghost use Rattle.saved_form.specs.Fields.{newest, field_at};
ghost use Rattle.saved_form.specs.Inner.Fields.{fields_from};
ghost use Rattle.saved_form.specs.Writing.{field_file, fields_file};
ghost use Rattle.saving.specs.Inner.Putting.{Put};

use saved_form::{FORM, nth_field, stands};
use seven_bit::put_number;

// A field's number after the one before it; nothing where the form has none there.
fn put_field(bytes: &mut [u8], place: usize, i: usize, before: u64, v: u64) -> usize
    requires { place + 10 ≤ length bytes.old }
    ensures { Put bytes.old place (field_file newest (field_at i) before v) bytes.new result }
{
    if !stands(FORM, nth_field(i), before) {
        return place;
    }
    put_number(bytes, place, v)
}

// As many fields as there are values, from one on.
pub(crate) fn put_fields(bytes: &mut [u8], place: usize, first: usize, values: &[u64]) -> usize
    requires { (first + length values.now < 2 ^ 64) × (place + 10 * length values.now ≤ length bytes.old) }
    ensures { let vs = values.now in
        Put bytes.old place (fields_file newest (fields_from first (length vs)) 0 vs) bytes.new result }
{
    let mut at = place;
    let mut before = 0;
    for (i, value) in values.iter().enumerate() {
        at = put_field(bytes, at, first + i, before, *value);
        before = *value;
    }
    at
}
