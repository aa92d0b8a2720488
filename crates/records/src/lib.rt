// Execution records in a lent run of structs, over the number slices in which the calls file them.
#![tactic(auto)]

mod into;
mod read;
mod run;

pub use into::{close_position_into, rebalance_into};
pub use read::record_at;
pub use run::{collect, store_record};
