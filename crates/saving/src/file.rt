// Saving an account into lent bytes.
ghost use Rattle.std.specs.Prelude.{◌≡◌, ◌≤◌, length};
ghost use Rattle.saved_form.specs.Writing.{file_of};
ghost use Rattle.saving.specs.Saving.{length_saved, saved_told, saved_into};
ghost use Rattle.saving.specs.Inner.Putting.{Put};

use crate::fields::put_fields;
use crate::positions::put_positions;
use account::{Account, Ledger};
use answer::Answer;
use saved_form::{FORM, head_values};
use seven_bit::put_number;

// How long the file is; 0 where it was refused.
// Kept: an answer beside the length, as "Each refusal returns its number with zero figures" asks of every call.
#[derive(Clone, Copy)]
pub struct Saved {
    pub answer: Answer,
    pub length: usize,
}

// The file of an account from the first byte on, and how long it is.
fn put_account(bytes: &mut [u8], a: Account) -> usize
    requires { (4096 ≤ length bytes.old) × (a.positions.count ≤ 64) }
    ensures { Put bytes.old 0 (file_of a) bytes.new result }
{
    let t = a.positions;
    let values = head_values(Ledger {
        cash: a.cash,
        settings: a.settings,
        counters: a.counters,
        series: a.series,
        count: t.count,
    });
    let head = put_number(bytes, 0, FORM);
    let rest = put_fields(bytes, head, 0, &values);
    put_positions(bytes, rest, &t.columns, t.count)
}

// The file is written aside first, where every number has room for ten groups and every symbol for eight letters, so that no size is asked before it is known.
fn save_whole(a: Account, file: &mut [u8]) -> Result<usize, Answer>
    ensures told { result ≡ length_saved a (length file.old) }
    ensures left { file.new ≡ saved_into a file.old }
{
    a.check_sound()?;
    let mut bytes = [0u8; 4096];
    let n = put_account(&mut bytes, a);
    if file.len() < n {
        return Err(Answer::NoFileRoom);
    }
    file[..n].copy_from_slice(&bytes[..n]);
    Ok(n)
}

// "Writing: 11, then 19 output room short."
pub fn save(a: Account, file: &mut [u8]) -> Saved
    ensures { (result ≡ saved_told a (length file.old)) × (file.new ≡ saved_into a file.old) }
{
    match save_whole(a, file) {
        Ok(length) => Saved {
            answer: Answer::Done,
            length,
        },
        Err(answer) => Saved { answer, length: 0 },
    }
}
