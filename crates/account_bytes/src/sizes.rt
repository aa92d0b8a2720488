// How many words of eight bytes settings, counters and an account take, and the place of each word, as specs/Sizes.antt has them.

pub const SETTINGS_WORDS: usize = 15;

pub const SETTINGS_BYTES: usize = 120;

// The words of settings, by their places among them.
pub const COMMISSION_AT: usize = 0;

pub const SLIPPAGE_AT: usize = 1;

pub const MIN_COMMISSION_AT: usize = 2;

pub const STEP_AT: usize = 3;

pub const MIN_ORDER_AT: usize = 4;

pub const MAX_ORDER_AT: usize = 5;

pub const BAND_AT: usize = 6;

pub const CAP_MARK_AT: usize = 7;

pub const CAP_COUNT_AT: usize = 8;

pub const MAX_NOTIONAL_AT: usize = 9;

pub const RECORDING_AT: usize = 10;

pub const CASH_FIRST_AT: usize = 11;

pub const MAX_COMMISSION_AT: usize = 12;
// Two words that stand for no setting: 0.
pub const COVER_RULE_AT: usize = 13;

pub const LONG_ONLY_AT: usize = 14;

pub const ACCOUNT_WORDS: usize = 347;

pub const ACCOUNT_BYTES: usize = 2776;

// The words of an account.
pub const CASH_AT: usize = 0;

pub const SETTINGS_AT: usize = 1;

pub const COUNTER_WORDS: usize = 7;

pub const COUNTERS_AT: usize = 16;

pub const ORDER_COUNT_AT: usize = 16;

pub const LAST_NOTIONAL_AT: usize = 17;

pub const TRIMMED_COUNT_AT: usize = 18;

pub const SHORTFALL_AT: usize = 19;

pub const RECORD_COUNT_AT: usize = 20;
// Two words that stand for no counter: 0.
pub const OPEN_COUNT_AT: usize = 21;

pub const CLOSED_TOTAL_AT: usize = 22;

pub const SERIES_WORDS: usize = 3;

pub const SERIES_AT: usize = 23;

pub const EQUITY_COUNT_AT: usize = 23;

pub const RETURN_COUNT_AT: usize = 24;

pub const PREV_EQUITY_AT: usize = 25;

pub const COUNT_AT: usize = 26;

pub const SYMBOLS_AT: usize = 27;

pub const QUANTITIES_AT: usize = 91;

pub const AVERAGES_AT: usize = 155;

pub const REALIZED_AT: usize = 219;

pub const TOTALS_AT: usize = 283;
