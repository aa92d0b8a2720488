// The plan as lent columns: added to in order, cut to the caps, and put into running order.
#![tactic(auto)]

mod cap;
mod insert;
mod place;
mod run;

pub use cap::{admit, is_capped, most_of};
pub use insert::{add_order, insert_at};
pub use place::place_by_drift;
pub use run::{notional_sum, run_order};
