// Position tracking for a single symbol.
#![tactic(auto)]

mod position;
mod shares;
mod symbol;

pub use position::{Filled, Position};
pub use shares::Shares;
pub use symbol::Symbol;
