// The settings of an account, as one value.
ghost use Rattle.std.specs.Prelude.{◌≡◌};
ghost use Rattle.account.specs.Settings.{of_costs, good_rules, good_band, good_settings};

use cost_model::CostModel;
use doubles::is_finite;

// The most orders that one rebalance admits.
// Kept: document 01 says of the trade cap that "`Option` becomes an enum".
#[derive(Clone, Copy, PartialEq, Eq)]
pub enum TradeCap {
    Absent,
    // 0 admits nothing.
    AtMost(u64),
}

// What is chosen at opening and has no setter.
#[derive(Clone, Copy)]
pub struct Rules {
    pub cost_model: CostModel,
}

#[derive(Clone, Copy)]
pub struct Settings {
    pub rules: Rules,
    // Order sizing granularity in micro-shares.
    pub quantity_step: i64,
    // Orders below this notional are skipped.
    pub min_order_value: i64,
    // Orders above this notional are cut down to it; 0 is off.
    pub max_order_value: i64,
    // A position is left alone until its drift exceeds this; 0 is off.
    pub no_trade_band_bps: f64,
    pub max_trades_per_rebalance: TradeCap,
    // The most notional that one rebalance trades; 0 is off.
    pub max_rebalance_notional: i64,
    pub recording: bool,
    pub cash_first: bool,
}

impl Rules {
    // Of an account that is opened by its costs alone.
    pub(crate) fn of_costs(cost_model: CostModel) -> Rules
        ensures { result ≡ of_costs cost_model }
    {
        Rules { cost_model }
    }

    fn is_good(self) -> bool
        ensures { result ≡ good_rules self }
    {
        self.cost_model.is_good()
    }
}

impl Settings {
    // "at least 0" or 1, the rates finite; -0.0 is at least 0.
    pub fn is_good(self) -> bool
        ensures { result ≡ good_settings self }
    {
        self.rules.is_good()
            && self.quantity_step >= 1
            && self.min_order_value >= 0
            && self.max_order_value >= 0
            && is_good_band(self.no_trade_band_bps)
            && self.max_rebalance_notional >= 0
    }
}

// "finite and at least 0"
fn is_good_band(x: f64) -> bool
    ensures { result ≡ good_band x }
{
    is_finite(x) && 0.0 <= x
}
