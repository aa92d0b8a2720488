// The lists of a call, targets and prices: what may be wrong with them, and the price that a list gives.
#![tactic(auto)]

mod list;
mod lookup;
mod price;
mod refusal;
mod sorting;

pub use list::{first_bad, first_repeat, first_unpriced, is_among, is_ascending};
pub use lookup::quote;
pub use price::Quote;
pub use refusal::{check_lists, check_prices};
pub use sorting::sort_prices;
