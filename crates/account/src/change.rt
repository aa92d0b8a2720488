// One setting changed: the Rust's setters, and those of recording and cash-first mode. The rules are fixed at opening.
ghost use Rattle.std.specs.Prelude.{◌≡◌};
ghost use Rattle.answer.specs.Numbers.{checked};
ghost use Rattle.account.specs.Settings.{with_step, with_min_order, with_max_order, with_band, with_trade_cap, with_max_notional, with_recording, with_cash_first};
ghost use Rattle.account.specs.Calls.{changed};
ghost use Rattle.account.specs.Inner.Answers.{settings_answer};

use crate::account::Account;
use crate::settings::{Settings, TradeCap};
use answer::Answer;

// An answer, and the account after the call.
// Kept: document 01, "Each refusal returns its number with zero figures, the account as given".
#[derive(Clone, Copy)]
pub struct Changed {
    pub answer: Answer,
    pub account: Account,
}

impl Account {
    // 11, then 1 for settings that are bad.
    fn check_settings(&self, settings: Settings) -> Result<(), Answer>
        ensures { result ≡ checked (settings_answer settings self.now) }
    {
        self.check()?;
        if settings.is_good() {
            Ok(())
        } else {
            Err(Answer::BadSetting)
        }
    }

    // The account under other settings; refused, it is as given.
    fn under(self, settings: Settings) -> Changed
        ensures { result ≡ changed settings self }
    {
        match self.check_settings(settings) {
            Ok(()) => Changed {
                answer: Answer::Done,
                account: Account { settings, ..self },
            },
            Err(answer) => Changed {
                answer,
                account: self,
            },
        }
    }

    // Order sizing granularity, in micro-shares.
    pub fn set_quantity_step(self, step: i64) -> Changed
        ensures { result ≡ changed (with_step step self.settings) self }
    {
        self.under(Settings {
            quantity_step: step,
            ..self.settings
        })
    }

    // Orders below this notional (cents) are skipped; 0 is off.
    pub fn set_min_order_value(self, value: i64) -> Changed
        ensures { result ≡ changed (with_min_order value self.settings) self }
    {
        self.under(Settings {
            min_order_value: value,
            ..self.settings
        })
    }

    // Orders above this notional (cents) are cut down to it; 0 is off.
    pub fn set_max_order_value(self, value: i64) -> Changed
        ensures { result ≡ changed (with_max_order value self.settings) self }
    {
        self.under(Settings {
            max_order_value: value,
            ..self.settings
        })
    }

    // A position is left alone until its drift exceeds this; 0 is off.
    pub fn set_no_trade_band_bps(self, bps: f64) -> Changed
        ensures { result ≡ changed (with_band bps self.settings) self }
    {
        self.under(Settings {
            no_trade_band_bps: bps,
            ..self.settings
        })
    }

    // The most orders that one rebalance admits: absent, or any count.
    pub fn set_max_trades_per_rebalance(self, cap: TradeCap) -> Changed
        ensures { result ≡ changed (with_trade_cap cap self.settings) self }
    {
        self.under(Settings {
            max_trades_per_rebalance: cap,
            ..self.settings
        })
    }

    // The most notional (cents) that one rebalance trades; 0 is off.
    pub fn set_max_rebalance_notional(self, value: i64) -> Changed
        ensures { result ≡ changed (with_max_notional value self.settings) self }
    {
        self.under(Settings {
            max_rebalance_notional: value,
            ..self.settings
        })
    }

    // Whether fills are recorded; the record count goes on from where it is.
    pub fn set_recording(self, on: bool) -> Changed
        ensures { result ≡ changed (with_recording on self.settings) self }
    {
        self.under(Settings {
            recording: on,
            ..self.settings
        })
    }

    // "those that lower no cash first, then the others, each group by symbol"
    pub fn set_cash_first(self, on: bool) -> Changed
        ensures { result ≡ changed (with_cash_first on self.settings) self }
    {
        self.under(Settings {
            cash_first: on,
            ..self.settings
        })
    }
}
