// Opening an account.
ghost use Rattle.std.specs.Prelude.{◌≡◌, pos};
ghost use Rattle.sums.specs.Sums.{SCALE};
ghost use Rattle.account.specs.Settings.{of_costs, opening_settings, zero_settings};
ghost use Rattle.account.specs.Calls.{empty_account, zero_account, open_account, opened_with, opening};
ghost use Rattle.account.specs.Inner.Calls.{opened_or_zero};

use crate::account::{Account, Counters, Series};
use crate::change::Changed;
use crate::settings::{Rules, Settings, TradeCap};
use crate::soundness::sound_scalars;
use answer::Answer;
use cost_model::CostModel;
use position::Shares;
use table::Table;

// No limits, no cap, no recording, orders as planned.
fn opening_settings(rules: Rules, quantity_step: i64) -> Settings
    ensures { result ≡ opening_settings rules quantity_step }
{
    Settings {
        rules,
        quantity_step,
        min_order_value: 0,
        max_order_value: 0,
        no_trade_band_bps: 0.0,
        max_trades_per_rebalance: TradeCap::Absent,
        max_rebalance_notional: 0,
        recording: false,
        cash_first: false,
    }
}

// Nothing held, nothing counted.
fn empty_account(cash: i64, settings: Settings, series: Series) -> Account
    ensures { result ≡ empty_account cash settings series }
{
    Account {
        cash,
        settings,
        counters: Counters {
            last_rebalance_order_count: 0,
            last_rebalance_notional: 0,
            trimmed_fill_count: 0,
            trimmed_shortfall_cents: 0,
            record_count: 0,
        },
        series,
        positions: Table::empty(),
    }
}

impl Settings {
    // No account has them: "`quantity_step` at least 1".
    pub fn zero() -> Settings
        ensures { result ≡ zero_settings }
    {
        opening_settings(Rules::of_costs(CostModel::zero()), 0)
    }
}

impl Account {
    // "all zeros from a refused opening"
    pub fn zero() -> Account
        ensures { result ≡ zero_account }
    {
        let series = Series {
            equity_count: 0,
            return_count: 0,
            prev_equity: 0,
        };
        empty_account(0, Settings::zero(), series)
    }

    // The cash is the first equity.
    pub fn opened(cash: i64, settings: Settings) -> Account
        ensures { result ≡ open_account cash settings }
    {
        let series = Series {
            equity_count: 1,
            return_count: 0,
            prev_equity: cash,
        };
        empty_account(cash, settings, series)
    }
}

// The account that opens, with its cash as the first equity: 1 for a bad setting or bad cash, then 10 for a buffer without a place.
fn try_open(
    cash: i64,
    rules: Rules,
    quantity_step: i64,
    equity: &mut [i64],
) -> Result<Account, Answer>
    ensures { opened_with (opened_or_zero result) equity.new ≡ opening cash rules quantity_step equity.old }
{
    let settings = opening_settings(rules, quantity_step);
    if !sound_scalars(cash, settings) {
        return Err(Answer::BadSetting);
    }
    if equity.is_empty() {
        return Err(Answer::BufferFull);
    }
    equity[0] = cash;
    Ok(Account::opened(cash, settings))
}

// An account that trades whole shares.
pub fn open(initial_cash: i64, cost_model: CostModel, equity: &mut [i64]) -> Changed
    ensures { opened_with result equity.new ≡ opening initial_cash (of_costs cost_model) (pos SCALE) equity.old }
{
    with_quantity_step(initial_cash, cost_model, Shares::SCALE, equity)
}

// "Opening writes the cash as the first equity", and lends the equity buffer only.
pub fn with_quantity_step(
    initial_cash: i64,
    cost_model: CostModel,
    quantity_step: i64,
    equity: &mut [i64],
) -> Changed
    ensures { opened_with result equity.new ≡ opening initial_cash (of_costs cost_model) quantity_step equity.old }
{
    match try_open(
        initial_cash,
        Rules::of_costs(cost_model),
        quantity_step,
        equity,
    ) {
        Ok(account) => Changed {
            answer: Answer::Done,
            account,
        },
        Err(answer) => Changed {
            answer,
            account: Account::zero(),
        },
    }
}
