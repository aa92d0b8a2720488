// The C interface: numbers and slices of numbers. Each function is the one of its name in the crate behind it, and says what that says.
#![tactic(auto)]

pub mod casts;
pub mod costs;
pub mod figures;
pub mod positions;
pub mod shares;
pub mod sizes;
pub mod wide;
