// The numbers of an account before its positions, in the file's order.
ghost use Rattle.std.specs.Prelude.{◌≡◌};
ghost use Rattle.saved_form.specs.Values.{rate_pattern, settings_of, counters_of, series_of, account_of, head_values};

use crate::field::HEAD_FIELDS;
use account::{Account, Counters, Ledger, Rules, Series, Settings};
use account_bytes::{cap_count, cap_mark, cap_of, flag_word};
use cost_model::CostModel;
use seven_bit::{folded, unfolded};
use table::Table;
use word_bytes::{float, pattern};

// "Floating zero settings are written with positive sign."
fn rate_pattern(x: f64) -> u64
    ensures { result ≡ rate_pattern x }
{
    let w = pattern(x);
    if w == 0x8000_0000_0000_0000 { 0 } else { w }
}

// The numbers of an account before its positions.
pub fn head_values(h: Ledger) -> [u64; HEAD_FIELDS]
    ensures { result ≡ head_values h }
{
    let settings = h.settings;
    let costs = settings.rules.cost_model;
    let cap = settings.max_trades_per_rebalance;
    let counters = h.counters;
    let series = h.series;
    [
        folded(h.cash),
        folded(costs.min_commission),
        folded(settings.min_order_value),
        folded(settings.max_order_value),
        folded(settings.max_rebalance_notional),
        folded(settings.quantity_step),
        rate_pattern(costs.commission_bps),
        rate_pattern(settings.no_trade_band_bps),
        rate_pattern(costs.slippage_bps),
        cap_mark(cap),
        cap_count(cap),
        folded(costs.max_commission),
        flag_word(settings.recording),
        flag_word(settings.cash_first),
        counters.last_rebalance_order_count,
        folded(counters.last_rebalance_notional),
        counters.trimmed_fill_count,
        folded(counters.trimmed_shortfall_cents),
        counters.record_count,
        series.equity_count,
        series.return_count,
        folded(series.prev_equity),
        h.count as u64,
    ]
}

fn settings_of(v: [u64; HEAD_FIELDS]) -> Settings
    ensures { result ≡ settings_of v }
{
    Settings {
        rules: Rules {
            cost_model: CostModel {
                commission_bps: float(v[6]),
                slippage_bps: float(v[8]),
                min_commission: unfolded(v[1]),
                max_commission: unfolded(v[11]),
            },
        },
        quantity_step: unfolded(v[5]),
        min_order_value: unfolded(v[2]),
        max_order_value: unfolded(v[3]),
        no_trade_band_bps: float(v[7]),
        max_trades_per_rebalance: cap_of(v[9], v[10]),
        max_rebalance_notional: unfolded(v[4]),
        recording: v[12] == 1,
        cash_first: v[13] == 1,
    }
}

fn counters_of(v: [u64; HEAD_FIELDS]) -> Counters
    ensures { result ≡ counters_of v }
{
    Counters {
        last_rebalance_order_count: v[14],
        last_rebalance_notional: unfolded(v[15]),
        trimmed_fill_count: v[16],
        trimmed_shortfall_cents: unfolded(v[17]),
        record_count: v[18],
    }
}

fn series_of(v: [u64; HEAD_FIELDS]) -> Series
    ensures { result ≡ series_of v }
{
    Series {
        equity_count: v[19],
        return_count: v[20],
        prev_equity: unfolded(v[21]),
    }
}

// The account of the numbers before its positions, and of these.
pub fn account_of(v: [u64; HEAD_FIELDS], positions: Table) -> Account
    ensures { result ≡ account_of v positions }
{
    Account {
        cash: unfolded(v[0]),
        settings: settings_of(v),
        counters: counters_of(v),
        series: series_of(v),
        positions,
    }
}
