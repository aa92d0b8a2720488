// Settings as words.
ghost use Rattle.std.specs.Prelude.{◌≡◌, ◌+◌, ◌≤◌};
ghost use Rattle.word_bytes.specs.Words.{words_of};
ghost use Rattle.account_bytes.specs.Sizes.{settings_from};
ghost use Rattle.account_bytes.specs.Settings.{flag_word, is_flag, is_number, is_spare, cap_mark, cap_count, cap_of, is_cap, costs_at, settings_words, settings_at, are_rates, are_flags, spare_settings, are_settings, read_settings, written_settings};

use crate::run::{put_words, value_at};
use crate::sizes::{
    BAND_AT, CAP_COUNT_AT, CAP_MARK_AT, CASH_FIRST_AT, COMMISSION_AT, COVER_RULE_AT, LONG_ONLY_AT,
    MAX_COMMISSION_AT, MAX_NOTIONAL_AT, MAX_ORDER_AT, MIN_COMMISSION_AT, MIN_ORDER_AT,
    RECORDING_AT, SETTINGS_BYTES, SETTINGS_WORDS, SLIPPAGE_AT, STEP_AT,
};
use account::{Rules, Settings, TradeCap};
use cost_model::CostModel;
use word_bytes::{float, pattern, unsigned, word_at};

// A flag is 0 or 1.
pub fn flag_word(on: bool) -> u64
    ensures { result ≡ flag_word on }
{
    u64::from(on)
}

pub fn is_flag(w: u64) -> bool
    ensures { result ≡ is_flag w }
{
    w < 2
}

// Whether a pattern is no NaN's.
fn is_number(w: u64) -> bool
    ensures { result ≡ is_number w }
{
    !float(w).is_nan()
}

// A word that stands for nothing is 0.
pub(crate) fn is_spare(w: u64) -> bool
    ensures { result ≡ is_spare w }
{
    w == 0
}

// The trade cap is two words: 1 where it is present, and its count, 0 where it is absent.
pub fn cap_mark(cap: TradeCap) -> u64
    ensures { result ≡ cap_mark cap }
{
    match cap {
        TradeCap::Absent => 0,
        TradeCap::AtMost(_) => 1,
    }
}

pub fn cap_count(cap: TradeCap) -> u64
    ensures { result ≡ cap_count cap }
{
    match cap {
        TradeCap::Absent => 0,
        TradeCap::AtMost(n) => n,
    }
}

pub fn cap_of(mark: u64, count: u64) -> TradeCap
    ensures { result ≡ cap_of mark count }
{
    if mark == 0 {
        TradeCap::Absent
    } else {
        TradeCap::AtMost(count)
    }
}

// A mark is 0 or 1, and a cap that is absent has the count 0.
pub fn is_cap(mark: u64, count: u64) -> bool
    ensures { result ≡ is_cap mark count }
{
    if mark == 0 { count == 0 } else { mark == 1 }
}

// No rate is a NaN.
fn are_rates(bytes: &[u8], from: usize) -> bool
    requires { from ≤ settings_from }
    ensures { result ≡ are_rates from (words_of bytes.now) }
{
    is_number(word_at(bytes, from + COMMISSION_AT))
        && is_number(word_at(bytes, from + SLIPPAGE_AT))
        && is_number(word_at(bytes, from + BAND_AT))
}

fn are_flags(bytes: &[u8], from: usize) -> bool
    requires { from ≤ settings_from }
    ensures { result ≡ are_flags from (words_of bytes.now) }
{
    is_flag(word_at(bytes, from + RECORDING_AT)) && is_flag(word_at(bytes, from + CASH_FIRST_AT))
}

fn spare_settings(bytes: &[u8], from: usize) -> bool
    requires { from ≤ settings_from }
    ensures { result ≡ spare_settings from (words_of bytes.now) }
{
    is_spare(word_at(bytes, from + COVER_RULE_AT)) && is_spare(word_at(bytes, from + LONG_ONLY_AT))
}

// Whether the words from a place on are words of settings.
pub(crate) fn are_settings(bytes: &[u8], from: usize) -> bool
    requires { from ≤ settings_from }
    ensures { result ≡ are_settings from (words_of bytes.now) }
{
    are_rates(bytes, from)
        && is_cap(
            word_at(bytes, from + CAP_MARK_AT),
            word_at(bytes, from + CAP_COUNT_AT),
        )
        && are_flags(bytes, from)
        && spare_settings(bytes, from)
}

fn costs_at(bytes: &[u8], from: usize) -> CostModel
    requires { from ≤ settings_from }
    ensures { result ≡ costs_at from (words_of bytes.now) }
{
    CostModel {
        commission_bps: value_at(bytes, from + COMMISSION_AT),
        slippage_bps: value_at(bytes, from + SLIPPAGE_AT),
        min_commission: value_at(bytes, from + MIN_COMMISSION_AT),
        max_commission: value_at(bytes, from + MAX_COMMISSION_AT),
    }
}

// The settings of the words from a place on.
pub(crate) fn settings_at(bytes: &[u8], from: usize) -> Settings
    requires { from ≤ settings_from }
    ensures { result ≡ settings_at from (words_of bytes.now) }
{
    let mark = word_at(bytes, from + CAP_MARK_AT);
    let count = word_at(bytes, from + CAP_COUNT_AT);
    Settings {
        rules: Rules {
            cost_model: costs_at(bytes, from),
        },
        quantity_step: value_at(bytes, from + STEP_AT),
        min_order_value: value_at(bytes, from + MIN_ORDER_AT),
        max_order_value: value_at(bytes, from + MAX_ORDER_AT),
        no_trade_band_bps: value_at(bytes, from + BAND_AT),
        max_trades_per_rebalance: cap_of(mark, count),
        max_rebalance_notional: value_at(bytes, from + MAX_NOTIONAL_AT),
        recording: word_at(bytes, from + RECORDING_AT) == 1,
        cash_first: word_at(bytes, from + CASH_FIRST_AT) == 1,
    }
}

// The words of settings.
pub(crate) fn settings_words(s: Settings) -> [u64; SETTINGS_WORDS]
    ensures { result ≡ settings_words s }
{
    let m = s.rules.cost_model;
    let cap = s.max_trades_per_rebalance;
    [
        pattern(m.commission_bps),
        pattern(m.slippage_bps),
        unsigned(m.min_commission),
        unsigned(s.quantity_step),
        unsigned(s.min_order_value),
        unsigned(s.max_order_value),
        pattern(s.no_trade_band_bps),
        cap_mark(cap),
        cap_count(cap),
        unsigned(s.max_rebalance_notional),
        flag_word(s.recording),
        flag_word(s.cash_first),
        unsigned(m.max_commission),
        0,
        0,
    ]
}

// The settings that so many bytes hold.
pub fn read_settings(bytes: &[u8]) -> Option<Settings>
    ensures { result ≡ read_settings bytes.now }
{
    if bytes.len() == SETTINGS_BYTES && are_settings(bytes, 0) {
        Some(settings_at(bytes, 0))
    } else {
        None
    }
}

// The settings into so many bytes. Nothing is written where the length is another.
pub fn write_settings(s: Settings, bytes: &mut [u8])
    ensures { bytes.new ≡ written_settings s bytes.old }
{
    if bytes.len() != SETTINGS_BYTES {
        return;
    }
    put_words(bytes, 0, &settings_words(s));
}
