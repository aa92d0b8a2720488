// Lists of the C interface: entries of whole words in bytes, read into columns and written from them.
#![tactic(auto)]

mod entry;
mod figure;
mod price;
mod record;
mod target;
mod weight;

pub use entry::is_whole;
pub use figure::write_figures;
pub use price::{Prices, prices_into, read_prices};
pub use record::write_records;
pub use target::{Targets, read_targets, targets_into};
pub use weight::write_weights;
