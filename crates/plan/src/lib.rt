// The plan of a rebalance, made in lent columns: closes in symbol order, then targets in list order.
#![tactic(auto)]

mod close;
mod plan;
mod target;

pub use close::plan_closes;
pub use plan::{Planned, admit_plan, make_plan};
pub use target::plan_targets;
