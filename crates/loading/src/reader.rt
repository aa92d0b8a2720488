// "a reader over the lent bytes and its place": each of its functions takes it apart, calls a function of the bytes and the place, and moves to where that one says.
ghost use Rattle.std.specs.Prelude.{◌≡◌};
ghost use Rattle.seven_bit.specs.Placed.{ToldNumber, number_at_of, number_or_fault};
ghost use Rattle.loading.specs.Reading.{ToldHead, head_read_of, head_or_fault, ToldPositions, table_read, positions_or_fault};
ghost use Rattle.loading.specs.Loading.{account_read};

use crate::head::{Head, head_at};
use crate::positions::{Positions, table_at};
use account::Account;
use answer::Answer;
use saved_form::{FORM, account_of};
use seven_bit::{Fault, Number, number_at};

// Where a number ended, or the place of its refusal.
fn number_end(read: &Result<Number, Fault>) -> usize
    ensures { (n : ToldNumber) → read.now ≡ number_or_fault n → result ≡ n.next }
{
    match read {
        Ok(number) => number.next,
        Err(fault) => fault.place,
    }
}

// The same of the numbers before the positions.
fn head_end(read: &Result<Head, Fault>) -> usize
    ensures { (h : ToldHead) → read.now ≡ head_or_fault h → result ≡ h.next }
{
    match read {
        Ok(head) => head.next,
        Err(fault) => fault.place,
    }
}

// The same of the positions.
fn positions_end(read: &Result<Positions, Fault>) -> usize
    ensures { (p : ToldPositions) → read.now ≡ positions_or_fault p → result ≡ p.next }
{
    match read {
        Ok(positions) => positions.next,
        Err(fault) => fault.place,
    }
}

#[derive(Drop)]
struct Reader<'a> {
    bytes: &'a [u8],
    place: usize,
}

impl<'a> Reader<'a> {
    // At the first byte.
    fn new(bytes: &'a [u8]) -> Reader<'a>
        ensures { (result.bytes ≡ bytes.entry) × (result.place ≡ 0) }
    {
        Reader { bytes, place: 0 }
    }

    // The next number in its seven-bit groups.
    fn number(&mut self) -> Result<Number, Fault>
        ensures read { result ≡ number_or_fault (number_at_of self.old.bytes.now self.old.place) }
        ensures same { self.new.bytes ≡ self.old.bytes }
        ensures moved { self.new.place ≡ (number_at_of self.old.bytes.now self.old.place).next }
    {
        let read = number_at(self.bytes, self.place);
        self.place = number_end(&read);
        read
    }

    // The numbers before the positions, in a file of a form.
    fn head(&mut self, form: u64) -> Result<Head, Fault>
        ensures read { result ≡ head_or_fault (head_read_of self.old.bytes.now form self.old.place) }
        ensures same { self.new.bytes ≡ self.old.bytes }
        ensures moved { self.new.place ≡ (head_read_of self.old.bytes.now form self.old.place).next }
    {
        let read = head_at(self.bytes, form, self.place);
        self.place = head_end(&read);
        read
    }

    // So many positions.
    fn positions(&mut self, form: u64, count: u64) -> Result<Positions, Fault>
        ensures read { result ≡ positions_or_fault (table_read self.old.bytes.now form count self.old.place) }
        ensures same { self.new.bytes ≡ self.old.bytes }
        ensures moved { self.new.place ≡ (table_read self.old.bytes.now form count self.old.place).next }
    {
        let read = table_at(self.bytes, form, count, self.place);
        self.place = positions_end(&read);
        read
    }
}

// The account of the whole file. It stops at the first refusal: "16 file ends early, 17 number not shortest or too large, 18 bytes left over, 11 for an unknown
// form, .. as the bytes are met; then 11 for an unsound account"
pub(crate) fn parse(bytes: &[u8]) -> Result<Account, Answer>
    ensures { result ≡ account_read bytes.now }
{
    let mut reader = Reader::new(bytes);
    let form = reader.number()?;
    if form.value != FORM {
        return Err(Answer::Unsound);
    }
    let head = reader.head(form.value)?;
    let positions = reader.positions(form.value, head.count)?;
    if reader.place != bytes.len() {
        return Err(Answer::LeftOver(reader.place));
    }
    let account = account_of(head.values, positions.table);
    account.check_sound()?;
    Ok(account)
}
