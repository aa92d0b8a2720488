// The numbers of a saved account: groups of seven bits, and signed numbers as unsigned ones.
#![tactic(auto)]

mod folding;
mod read;
mod write;

pub use folding::{folded, unfolded};
pub use read::{Fault, Number, number_at};
pub use write::put_number;
