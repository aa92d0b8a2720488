// Whole calls on an account: what each is refused for, and what it leaves.
#![tactic(auto)]

mod close;
mod equity;
mod rebalance;
mod refusal;
mod returns;
mod trade;

pub use close::{close_on, close_position_at};
pub use equity::total_equity;
pub use rebalance::{rebalance_on, rebalance_simple};
pub use refusal::check_query;
pub use returns::{Noted, record_return, return_on};
pub use trade::{Ran, Traded};
