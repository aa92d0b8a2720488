// Queries with prices: the first holding without a price, the weights of an account, and its snapshot.
#![tactic(auto)]

mod answered;
mod price;
mod query;
mod sum;
mod unpriced;
mod weight;

pub use answered::{Snapshot, Unpriced, Weighed, Weights};
pub use query::{current_weights, snapshot};
pub use unpriced::unpriced_holding;
