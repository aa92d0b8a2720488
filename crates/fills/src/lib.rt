// Filling orders on lent columns: one fill, its record, and a run of fills.
#![tactic(auto)]

mod deal;
mod fill;
mod record;
mod terms;

pub use fill::{Filled, fill_all, fill_one};
pub use record::{ExecutionKind, ExecutionRecord, kind_number, kind_of, store};
pub use terms::{Book, Order, Terms};
