// "a symbol is its length and bytes"
ghost use Rattle.std.specs.Prelude.{◌≡◌, ◌+◌, ◌/◌, ◌≤◌, ◌^◌, length};
ghost use Rattle.saved_form.specs.Texts.{text_of, symbol_file};
ghost use Rattle.saving.specs.Inner.Putting.{Put};

use seven_bit::put_number;

// The highest byte of a word.
fn top_byte(n: u64) -> u8
    ensures { result ≡ n / 2 ^ 56 }
{
    (n / 0x0100_0000_0000_0000) as u8
}

// How many bytes stand before the padding.
fn text_length(s: u64) -> usize
    ensures { result ≡ length (text_of s) }
{
    let mut rest = s;
    for n in 0..8 {
        if top_byte(rest) == 0 {
            return n;
        }
        rest = rest % 0x0100_0000_0000_0000 * 256;
    }
    8
}

// Those bytes, from a place on.
fn put_text(bytes: &mut [u8], place: usize, s: u64) -> usize
    requires { place + 8 ≤ length bytes.old }
    ensures { Put bytes.old place (text_of s) bytes.new result }
{
    let mut rest = s;
    for at in place..place + 8 {
        let byte = top_byte(rest);
        if byte == 0 {
            return at;
        }
        bytes[at] = byte;
        rest = rest % 0x0100_0000_0000_0000 * 256;
    }
    place + 8
}

pub(crate) fn put_symbol(bytes: &mut [u8], place: usize, s: u64) -> usize
    requires { place + 18 ≤ length bytes.old }
    ensures { Put bytes.old place (symbol_file s) bytes.new result }
{
    let at = put_number(bytes, place, text_length(s) as u64);
    put_text(bytes, at, s)
}
