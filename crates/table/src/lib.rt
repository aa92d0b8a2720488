// The positions of an account: a table ordered by symbol, with room for 64.
#![tactic(auto)]

mod column;
mod found;
mod ordered;
mod table;

pub use column::open;
pub use found::{Found, find, used};
pub use ordered::ascends;
pub use table::{Columns, Table};
