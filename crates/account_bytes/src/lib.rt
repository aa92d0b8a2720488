// Accounts and settings as the bytes that the C interface is lent.
#![tactic(auto)]

mod account_words;
mod columns;
mod run;
mod setting_words;
mod sizes;

pub use account_words::{
    account_in, counter_words, is_account, read_account, read_ledger, series_words, write_account,
    write_ledger, write_series,
};
pub use columns::read_columns;
pub use setting_words::{
    cap_count, cap_mark, cap_of, flag_word, is_cap, is_flag, read_settings, write_settings,
};
pub use sizes::{ACCOUNT_BYTES, ACCOUNT_WORDS, COUNTER_WORDS, SERIES_WORDS, SETTINGS_BYTES};
