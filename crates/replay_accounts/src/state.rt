// The account that a row tells, in 61 words: the Rust's fields in its own order, and eight places of a position's five. No word of it is a word of the C
// interface's bytes, so that those may change and the sample stays. What the Rust lacks is as an opening leaves it.
ghost use Rattle.std.specs.Prelude.{◌≤◌, ◌<◌};

use account::{Account, Counters, Rules, Series, Settings, TradeCap};
use cost_model::CostModel;
use table::{Columns, Table};
use word_bytes::{float, pattern, signed, symbol_at, unsigned, word_at};

// The places of the words.
const CASH_AT: usize = 0;

const COMMISSION_AT: usize = 1;

const SLIPPAGE_AT: usize = 2;

const MIN_COMMISSION_AT: usize = 3;

const STEP_AT: usize = 4;

const MIN_ORDER_AT: usize = 5;

const MAX_ORDER_AT: usize = 6;

const BAND_AT: usize = 7;

const CAP_MARK_AT: usize = 8;

const CAP_COUNT_AT: usize = 9;

const MAX_NOTIONAL_AT: usize = 10;

const RECORDING_AT: usize = 11;

const ORDER_COUNT_AT: usize = 12;

const LAST_NOTIONAL_AT: usize = 13;

const TRIMMED_COUNT_AT: usize = 14;

const SHORTFALL_AT: usize = 15;

const RECORD_COUNT_AT: usize = 16;

const EQUITY_COUNT_AT: usize = 17;

const RETURN_COUNT_AT: usize = 18;

const PREV_EQUITY_AT: usize = 19;

const COUNT_AT: usize = 20;

// A count that is at most eight.
pub(crate) fn count(word: u64) -> usize
    ensures { result ≤ 8 }
{
    (word % 9) as usize
}

fn number(told: &[u8], i: usize) -> i64 {
    signed(word_at(told, i))
}

fn rate(told: &[u8], i: usize) -> f64 {
    float(word_at(told, i))
}

pub(crate) fn cap(mark: u64, most: u64) -> TradeCap {
    if mark == 0 {
        return TradeCap::Absent;
    }
    TradeCap::AtMost(most)
}

fn costs_of(told: &[u8]) -> CostModel {
    CostModel {
        commission_bps: rate(told, COMMISSION_AT),
        slippage_bps: rate(told, SLIPPAGE_AT),
        min_commission: number(told, MIN_COMMISSION_AT),
        max_commission: 0,
    }
}

// The settings that the Rust has, and the rest as it was opened.
fn settings_of(told: &[u8], opened: Settings) -> Settings {
    Settings {
        rules: Rules {
            cost_model: costs_of(told),
        },
        quantity_step: number(told, STEP_AT),
        min_order_value: number(told, MIN_ORDER_AT),
        max_order_value: number(told, MAX_ORDER_AT),
        no_trade_band_bps: rate(told, BAND_AT),
        max_trades_per_rebalance: cap(word_at(told, CAP_MARK_AT), word_at(told, CAP_COUNT_AT)),
        max_rebalance_notional: number(told, MAX_NOTIONAL_AT),
        recording: word_at(told, RECORDING_AT) == 1,
        ..opened
    }
}

fn counters_of(told: &[u8], opened: Counters) -> Counters {
    Counters {
        last_rebalance_order_count: word_at(told, ORDER_COUNT_AT),
        last_rebalance_notional: number(told, LAST_NOTIONAL_AT),
        trimmed_fill_count: word_at(told, TRIMMED_COUNT_AT),
        trimmed_shortfall_cents: number(told, SHORTFALL_AT),
        record_count: word_at(told, RECORD_COUNT_AT),
        ..opened
    }
}

fn series_of(told: &[u8]) -> Series {
    Series {
        equity_count: word_at(told, EQUITY_COUNT_AT),
        return_count: word_at(told, RETURN_COUNT_AT),
        prev_equity: number(told, PREV_EQUITY_AT),
    }
}

// The symbols of the eight places; those past them are zero, here and below.
fn symbols_of(told: &[u8]) -> [u64; 64] {
    let mut column = [0; 64];
    for k in 0..8 {
        column[k] = symbol_at(told, 21 + 5 * k);
    }
    column
}

// A field of each position, by its place among the five of a position, the symbol's being 0.
fn numbers_of(told: &[u8], field: usize) -> [i64; 64]
    requires { field < 5 }
{
    let mut column = [0; 64];
    for k in 0..8 {
        column[k] = number(told, 21 + field + 5 * k);
    }
    column
}

fn columns_of(told: &[u8]) -> Columns {
    Columns {
        symbol: symbols_of(told),
        quantity: numbers_of(told, 1),
        average: numbers_of(told, 2),
        realized: numbers_of(told, 3),
        total: numbers_of(told, 4),
    }
}

fn positions_of(told: &[u8]) -> Table {
    Table {
        count: count(word_at(told, COUNT_AT)),
        columns: columns_of(told),
    }
}

pub(crate) fn account_of(told: &[u8]) -> Account {
    let mut equity = [0; 1];
    let opened = account::open(0, CostModel::zero(), &mut equity).account;
    Account {
        cash: number(told, CASH_AT),
        settings: settings_of(told, opened.settings),
        counters: counters_of(told, opened.counters),
        series: series_of(told),
        positions: positions_of(told),
    }
}

fn same_cap(told: &[u8], cap: TradeCap) -> bool {
    match cap {
        TradeCap::Absent => word_at(told, CAP_MARK_AT) == 0,
        TradeCap::AtMost(most) => word_at(told, CAP_MARK_AT) == 1
            && word_at(told, CAP_COUNT_AT) == most,
    }
}

fn same_settings(told: &[u8], s: Settings) -> bool {
    let costs = s.rules.cost_model;
    word_at(told, COMMISSION_AT) == pattern(costs.commission_bps)
        && word_at(told, SLIPPAGE_AT) == pattern(costs.slippage_bps)
        && word_at(told, MIN_COMMISSION_AT) == unsigned(costs.min_commission)
        && word_at(told, STEP_AT) == unsigned(s.quantity_step)
        && word_at(told, MIN_ORDER_AT) == unsigned(s.min_order_value)
        && word_at(told, MAX_ORDER_AT) == unsigned(s.max_order_value)
        && word_at(told, BAND_AT) == pattern(s.no_trade_band_bps)
        && same_cap(told, s.max_trades_per_rebalance)
        && word_at(told, MAX_NOTIONAL_AT) == unsigned(s.max_rebalance_notional)
        && word_at(told, RECORDING_AT) == u64::from(s.recording)
        && !s.cash_first
}

fn same_counts(told: &[u8], k: Counters, s: Series) -> bool {
    word_at(told, ORDER_COUNT_AT) == k.last_rebalance_order_count
        && word_at(told, LAST_NOTIONAL_AT) == unsigned(k.last_rebalance_notional)
        && word_at(told, TRIMMED_COUNT_AT) == k.trimmed_fill_count
        && word_at(told, SHORTFALL_AT) == unsigned(k.trimmed_shortfall_cents)
        && word_at(told, RECORD_COUNT_AT) == k.record_count
        && word_at(told, EQUITY_COUNT_AT) == s.equity_count
        && word_at(told, RETURN_COUNT_AT) == s.return_count
        && word_at(told, PREV_EQUITY_AT) == unsigned(s.prev_equity)
}

// Whether both columns are the same in all places. The loop has no way out, so that it compiles to vector steps.
fn same<T: Copy + PartialEq>(a: &[T; 64], b: &[T; 64]) -> bool {
    let mut same = true;
    for k in 0..64 {
        same &= a[k] == b[k];
    }
    same
}

fn same_positions(told: &[u8], positions: Table) -> bool {
    let ours = &positions.columns;
    word_at(told, COUNT_AT) == positions.count as u64
        && same(&symbols_of(told), &ours.symbol)
        && same(&numbers_of(told, 1), &ours.quantity)
        && same(&numbers_of(told, 2), &ours.average)
        && same(&numbers_of(told, 3), &ours.realized)
        && same(&numbers_of(told, 4), &ours.total)
}

// Whether an account is the one that is told, in all that the Rust has and in what it lacks.
pub(crate) fn same_account(told: &[u8], a: Account) -> bool {
    word_at(told, CASH_AT) == unsigned(a.cash)
        && same_settings(told, a.settings)
        && same_counts(told, a.counters, a.series)
        && same_positions(told, a.positions)
}
