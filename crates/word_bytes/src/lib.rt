// Bytes of the C interface: words of 64 bits, eight bytes a word, and what a word stands for.
#![tactic(auto)]

mod number;
mod stored;
mod symbol;
mod word;

pub use number::{float, pattern, signed, unsigned};
pub use stored::Stored;
pub use symbol::{put_symbol, symbol_at};
pub use word::{put_word, word_at};
