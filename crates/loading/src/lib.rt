// Reading a saved account.
#![tactic(auto)]

mod entry;
mod file;
mod head;
mod number;
mod positions;
mod reader;
mod text;

pub use file::load;
