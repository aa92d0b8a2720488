// An account as words: cash, settings, counters, series, the count of positions and five columns of 64.
ghost use Rattle.std.specs.Prelude.{◌≡◌, length};
ghost use Rattle.word_bytes.specs.Words.{words_of};
ghost use Rattle.table.specs.Rows.{cols};
ghost use Rattle.account.specs.Inner.Account.{account_with, ledger_of};
ghost use Rattle.account_bytes.specs.Sizes.{account_length};
ghost use Rattle.account_bytes.specs.Account.{counter_words, series_words, counters_of, spare_counters, series_of, account_of, hold_account, read_account, account_in, written_account, written_series};

use crate::columns::{put_columns, read_columns};
use crate::run::{put_words, value_at};
use crate::setting_words::{are_settings, is_spare, settings_at, settings_words};
use crate::sizes::{
    ACCOUNT_BYTES, CASH_AT, CLOSED_TOTAL_AT, COUNT_AT, COUNTER_WORDS, COUNTERS_AT, EQUITY_COUNT_AT,
    LAST_NOTIONAL_AT, OPEN_COUNT_AT, ORDER_COUNT_AT, PREV_EQUITY_AT, RECORD_COUNT_AT,
    RETURN_COUNT_AT, SERIES_AT, SERIES_WORDS, SETTINGS_AT, SHORTFALL_AT, TRIMMED_COUNT_AT,
};
use account::{Account, Counters, Ledger, Series};
use table::{Columns, Table};
use word_bytes::{put_word, unsigned, word_at};

fn counters_of(bytes: &[u8]) -> Counters
    ensures { result ≡ counters_of (words_of bytes.now) }
{
    Counters {
        last_rebalance_order_count: word_at(bytes, ORDER_COUNT_AT),
        last_rebalance_notional: value_at(bytes, LAST_NOTIONAL_AT),
        trimmed_fill_count: word_at(bytes, TRIMMED_COUNT_AT),
        trimmed_shortfall_cents: value_at(bytes, SHORTFALL_AT),
        record_count: word_at(bytes, RECORD_COUNT_AT),
    }
}

// Two words that stand for no counter.
fn spare_counters(bytes: &[u8]) -> bool
    ensures { result ≡ spare_counters (words_of bytes.now) }
{
    is_spare(word_at(bytes, OPEN_COUNT_AT)) && is_spare(word_at(bytes, CLOSED_TOTAL_AT))
}

fn series_of(bytes: &[u8]) -> Series
    ensures { result ≡ series_of (words_of bytes.now) }
{
    Series {
        equity_count: word_at(bytes, EQUITY_COUNT_AT),
        return_count: word_at(bytes, RETURN_COUNT_AT),
        prev_equity: value_at(bytes, PREV_EQUITY_AT),
    }
}

// The account of so many bytes but for its columns; of other bytes, what they have of its words, and 0 for the rest.
pub fn read_ledger(bytes: &[u8]) -> Ledger
    ensures { result ≡ ledger_of (account_of (words_of bytes.now)) }
{
    Ledger {
        cash: value_at(bytes, CASH_AT),
        settings: settings_at(bytes, SETTINGS_AT),
        counters: counters_of(bytes),
        series: series_of(bytes),
        count: word_at(bytes, COUNT_AT) as usize,
    }
}

fn account_of(bytes: &[u8]) -> Account
    requires { length bytes.now ≡ account_length }
    ensures { result ≡ account_of (words_of bytes.now) }
{
    let mut columns = Columns::empty();
    read_columns(bytes, &mut columns);
    let h = read_ledger(bytes);
    Account {
        cash: h.cash,
        settings: h.settings,
        counters: h.counters,
        series: h.series,
        positions: Table {
            count: h.count,
            columns,
        },
    }
}

// The words of counters, 0 where none stands.
pub fn counter_words(k: Counters) -> [u64; COUNTER_WORDS]
    ensures { result ≡ counter_words k }
{
    [
        k.last_rebalance_order_count,
        unsigned(k.last_rebalance_notional),
        k.trimmed_fill_count,
        unsigned(k.trimmed_shortfall_cents),
        k.record_count,
        0,
        0,
    ]
}

// The words of a series.
pub fn series_words(s: Series) -> [u64; SERIES_WORDS]
    ensures { result ≡ series_words s }
{
    [s.equity_count, s.return_count, unsigned(s.prev_equity)]
}

// Whether bytes hold an account: so many of them, with words of settings, and 0 where no counter stands.
pub fn is_account(bytes: &[u8]) -> bool
    ensures { result ≡ hold_account bytes.now }
{
    bytes.len() == ACCOUNT_BYTES && are_settings(bytes, SETTINGS_AT) && spare_counters(bytes)
}

// The account that bytes hold. Whether it is sound is for the calls to refuse.
pub fn read_account(bytes: &[u8]) -> Option<Account>
    ensures { result ≡ read_account bytes.now }
{
    if is_account(bytes) {
        Some(account_of(bytes))
    } else {
        None
    }
}

// The same, with zeros where there is none. All zeros are no sound account, so every call on bytes that hold none answers 11.
pub fn account_in(bytes: &[u8]) -> Account
    ensures { result ≡ account_in bytes.now }
{
    if is_account(bytes) {
        account_of(bytes)
    } else {
        Account::zero()
    }
}

// The account of a ledger and five columns into its bytes. Nothing is written where the length is another.
pub fn write_ledger<'a>(h: Ledger, columns: &'a Columns, bytes: &mut [u8])
    ensures { bytes.new ≡ written_account (account_with h columns.now) bytes.old }
{
    if bytes.len() != ACCOUNT_BYTES {
        return;
    }
    put_word(bytes, CASH_AT, unsigned(h.cash));
    put_words(bytes, SETTINGS_AT, &settings_words(h.settings));
    put_words(bytes, COUNTERS_AT, &counter_words(h.counters));
    put_words(bytes, SERIES_AT, &series_words(h.series));
    put_word(bytes, COUNT_AT, h.count as u64);
    put_columns(bytes, columns);
}

// The account into its bytes. Nothing is written where the length is another.
pub fn write_account(a: Account, bytes: &mut [u8])
    ensures { bytes.new ≡ written_account a bytes.old }
{
    let h = Ledger {
        cash: a.cash,
        settings: a.settings,
        counters: a.counters,
        series: a.series,
        count: a.positions.count,
    };
    write_ledger(h, &a.positions.columns, bytes);
}

// A series into the bytes of an account, whose other words stay. Nothing is written where they hold none.
pub fn write_series(s: Series, bytes: &mut [u8])
    ensures { bytes.new ≡ written_series s bytes.old }
{
    if !is_account(bytes) {
        return;
    }
    put_words(bytes, SERIES_AT, &series_words(s));
}
