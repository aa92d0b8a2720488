// A symbol as its length and its bytes.
ghost use Rattle.std.specs.Prelude.{◌≡◌, ◌<◌, ◌≤◌, length, get_or};
ghost use Rattle.position.specs.Symbols.{of_bytes};
ghost use Rattle.seven_bit.specs.Placed.{number_or_fault};
ghost use Rattle.saved_form.specs.Texts.{spelt};
ghost use Rattle.loading.specs.Reading.{text_read, symbol_read};

use answer::Answer;
use seven_bit::{Fault, Number, number_at};

// A byte of a text, 0 past its end.
fn letter(text: &[u8], i: usize) -> u64
    ensures { (result ≡ get_or text.now i 0) × (result < 256) }
{
    if i < text.len() { text[i] as u64 } else { 0 }
}

// The number of a text padded with zeros to eight bytes, its first byte highest.
fn spelling(text: &[u8]) -> u64
    ensures { result ≡ of_bytes text.now }
{
    let mut sum = 0;
    for i in 0..8 {
        sum = sum * 256 + letter(text, i);
    }
    sum
}

// A text that ends in a zero has the number of a shorter one, so it spells none.
fn spelt_in(text: &[u8]) -> u64
    requires { 1 ≤ length text.now }
    ensures { result ≡ spelt text.now }
{
    if text[text.len() - 1] == 0 {
        0
    } else {
        spelling(text)
    }
}

fn text_at(bytes: &[u8], n: usize, at: usize) -> Result<Number, Fault>
    requires { 1 ≤ n }
    ensures { result ≡ number_or_fault (text_read bytes.now n at) }
{
    let end = bytes.len();
    if end < n || end - n < at {
        return Err(Fault {
            answer: Answer::EndsEarly(end),
            place: end,
        });
    }
    Ok(Number {
        value: spelt_in(&bytes[at..at + n]),
        next: at + n,
    })
}

// "a symbol length outside 1 to 8" is refused before any of the text is looked at.
pub(crate) fn symbol_at(bytes: &[u8], place: usize) -> Result<Number, Fault>
    ensures { result ≡ number_or_fault (symbol_read bytes.now place) }
{
    let length = number_at(bytes, place)?;
    match length.value {
        1..=8 => text_at(bytes, length.value as usize, length.next),
        _ => Err(Fault {
            answer: Answer::Unsound,
            place,
        }),
    }
}
