// What a rebalance wants before any cap: equity at the listed prices, and the orders that close holdings or move them to their targets.
#![tactic(auto)]

mod equity;
mod limits;
mod planned;

pub use equity::total_worth;
pub use planned::{PlannedOrder, planned_close, planned_target};
