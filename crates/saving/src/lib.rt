// Writing a saved account.
#![tactic(auto)]

mod fields;
mod file;
mod positions;
mod text;

pub use file::{Saved, save};
