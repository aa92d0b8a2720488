// The account: cash, settings, counters, series and positions, by value or as a ledger and lent columns.
#![tactic(auto)]

mod account;
mod change;
mod holding;
mod opening;
mod query;
mod settings;
mod soundness;

pub use account::{Account, Counters, Ledger, Series};
pub use change::Changed;
pub use holding::Held;
pub use opening::{open, with_quantity_step};
pub use query::Told;
pub use settings::{Rules, Settings, TradeCap};
pub use soundness::{sound_account, sound_columns, sound_scalars};
