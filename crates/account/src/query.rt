// What an account tells of itself. "Queries refuse by the same table": one that is not sound answers 11 with a zero figure.
ghost use Rattle.std.specs.Prelude.{◌≡◌};
ghost use Rattle.account.specs.Account.{sound_account};
ghost use Rattle.account.specs.Calls.{told, told_cents, told_step, told_count, told_rate, told_flag, told_cap, told_costs};

use crate::account::Account;
use crate::settings::TradeCap;
use answer::Answer;
use cost_model::CostModel;
use position::Shares;

// A figure of an account, with its answer.
// Kept: document 01, "Each refusal returns its number with zero figures".
#[derive(Clone, Copy)]
pub struct Told<T> {
    pub answer: Answer,
    pub value: T,
}

impl Account {
    // The figure of a sound account, else the zero that goes with a refusal.
    fn told<T: Copy>(self, value: T, zero: T) -> Told<T>
        ensures { result ≡ told zero (sound_account self) value }
    {
        match self.check() {
            Ok(()) => Told {
                answer: Answer::Done,
                value,
            },
            Err(answer) => Told {
                answer,
                value: zero,
            },
        }
    }

    pub fn cash(self) -> Told<i64>
        ensures { result ≡ told_cents (sound_account self) self.cash }
    {
        self.told(self.cash, 0)
    }

    pub fn quantity_step(self) -> Told<Shares>
        ensures { result ≡ told_step (sound_account self) self.settings.quantity_step }
    {
        self.told(Shares::from_raw(self.settings.quantity_step), Shares::ZERO)
    }

    pub fn min_order_value(self) -> Told<i64>
        ensures { result ≡ told_cents (sound_account self) self.settings.min_order_value }
    {
        self.told(self.settings.min_order_value, 0)
    }

    pub fn max_order_value(self) -> Told<i64>
        ensures { result ≡ told_cents (sound_account self) self.settings.max_order_value }
    {
        self.told(self.settings.max_order_value, 0)
    }

    pub fn no_trade_band_bps(self) -> Told<f64>
        ensures { result ≡ told_rate (sound_account self) self.settings.no_trade_band_bps }
    {
        self.told(self.settings.no_trade_band_bps, 0.0)
    }

    pub fn max_trades_per_rebalance(self) -> Told<TradeCap>
        ensures { result ≡ told_cap (sound_account self) self.settings.max_trades_per_rebalance }
    {
        self.told(self.settings.max_trades_per_rebalance, TradeCap::Absent)
    }

    pub fn max_rebalance_notional(self) -> Told<i64>
        ensures { result ≡ told_cents (sound_account self) self.settings.max_rebalance_notional }
    {
        self.told(self.settings.max_rebalance_notional, 0)
    }

    pub fn is_recording(self) -> Told<bool>
        ensures { result ≡ told_flag (sound_account self) self.settings.recording }
    {
        self.told(self.settings.recording, false)
    }

    pub fn is_cash_first(self) -> Told<bool>
        ensures { result ≡ told_flag (sound_account self) self.settings.cash_first }
    {
        self.told(self.settings.cash_first, false)
    }

    pub fn cost_model(self) -> Told<CostModel>
        ensures { result ≡ told_costs (sound_account self) self.settings.rules.cost_model }
    {
        self.told(self.settings.rules.cost_model, CostModel::zero())
    }

    // How many orders the last rebalance admitted.
    pub fn last_rebalance_order_count(self) -> Told<u64>
        ensures { result ≡ told_count (sound_account self) self.counters.last_rebalance_order_count }
    {
        self.told(self.counters.last_rebalance_order_count, 0)
    }

    pub fn last_rebalance_notional(self) -> Told<i64>
        ensures { result ≡ told_cents (sound_account self) self.counters.last_rebalance_notional }
    {
        self.told(self.counters.last_rebalance_notional, 0)
    }

    // How many buys were cut to what cash allows, also to nothing.
    pub fn trimmed_fill_count(self) -> Told<u64>
        ensures { result ≡ told_count (sound_account self) self.counters.trimmed_fill_count }
    {
        self.told(self.counters.trimmed_fill_count, 0)
    }

    // The notional that those buys lost.
    pub fn trimmed_shortfall_cents(self) -> Told<i64>
        ensures { result ≡ told_cents (sound_account self) self.counters.trimmed_shortfall_cents }
    {
        self.told(self.counters.trimmed_shortfall_cents, 0)
    }

    pub fn record_count(self) -> Told<u64>
        ensures { result ≡ told_count (sound_account self) self.counters.record_count }
    {
        self.told(self.counters.record_count, 0)
    }

    // How many places of the caller's equity buffer are filled.
    pub fn equity_count(self) -> Told<u64>
        ensures { result ≡ told_count (sound_account self) self.series.equity_count }
    {
        self.told(self.series.equity_count, 0)
    }

    pub fn return_count(self) -> Told<u64>
        ensures { result ≡ told_count (sound_account self) self.series.return_count }
    {
        self.told(self.series.return_count, 0)
    }

    // Flat positions count too.
    pub fn position_count(self) -> Told<u64>
        ensures { result ≡ told_count (sound_account self) self.positions.count }
    {
        self.told(self.positions.count as u64, 0)
    }
}
