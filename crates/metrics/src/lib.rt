// The figures of a return series that need no root and no power, in the Rust's order of operations.
#![tactic(auto)]

mod curve;
mod ratio;
mod series;
mod tally;

ghost use Rattle.std.specs.Prelude.{◌≡◌};
ghost use Rattle.metrics.specs.Answers.{metrics_of, refusal};
ghost use Rattle.metrics.specs.Inner.Gathered.{figures_from, measured};

use crate::series::{Gathered, gather};
use crate::tally::Tally;
use answer::Answer;

// At most 4,096 returns in one set of figures.
const MOST_RETURNS: usize = 4096;

#[derive(Clone, Copy)]
pub struct Figures {
    // Total cumulative return (e.g., 0.15 = 15%)
    pub total_return: f64,
    // Maximum drawdown (as positive fraction, e.g., 0.20 = 20% peak-to-trough)
    pub max_drawdown: f64,
    // Number of return periods
    pub num_periods: u64,
    // Periods with positive return
    pub winning_periods: u64,
    // Periods with negative return
    pub losing_periods: u64,
    // Win rate: fraction of positive-return periods
    pub win_rate: f64,
    // Profit factor: sum(positive returns) / |sum(negative returns)|
    pub profit_factor: f64,
    // Payoff ratio: mean(winning returns) / |mean(losing returns)|
    pub payoff_ratio: f64,
    // Kelly criterion: win_rate - (1 - win_rate) / payoff_ratio
    pub kelly: f64,
}

// Kept: `answer` stands beside figures, since document 01 says "Each refusal returns its number with zero figures".
#[derive(Clone, Copy)]
pub struct Metrics {
    pub answer: Answer,
    pub figures: Figures,
}

// "Each refusal returns its number with zero figures".
#[tactic(auto, unfolding(crate::specs::Figures::no_figures))]
fn refused(answer: Answer) -> Metrics
    ensures { result ≡ refusal answer }
{
    Metrics {
        answer,
        figures: Figures {
            total_return: 0.0,
            max_drawdown: 0.0,
            num_periods: 0,
            winning_periods: 0,
            losing_periods: 0,
            win_rate: 0.0,
            profit_factor: 0.0,
            payoff_ratio: 0.0,
            kelly: 0.0,
        },
    }
}

// The figures of what one pass over `num_periods` returns gathered.
#[tactic(auto, unfolding(crate::specs::Inner::Gathered::figures_from, crate::specs::Inner::Gathered::tally_payoff))]
fn figures_of(num_periods: u64, gathered: Gathered) -> Figures
    ensures { result ≡ figures_from num_periods gathered.curve gathered.tally }
{
    let Gathered { curve, tally } = gathered;
    let Tally {
        winning_periods,
        losing_periods,
        sum_positive,
        sum_negative,
    } = tally;
    let win_rate = ratio::win_rate(winning_periods, num_periods);
    let mean_winning = ratio::mean(sum_positive, winning_periods);
    let mean_losing = ratio::mean(sum_negative, losing_periods);
    let payoff_ratio = ratio::gain_over_loss(mean_winning, mean_losing);
    Figures {
        total_return: curve.equity - 1.0,
        max_drawdown: curve.max_drawdown,
        num_periods,
        winning_periods,
        losing_periods,
        win_rate,
        profit_factor: ratio::gain_over_loss(sum_positive, sum_negative),
        payoff_ratio,
        kelly: ratio::kelly(win_rate, payoff_ratio),
    }
}

// The figures of a series, and else why it has none: answer 6 for a series over its bound, then 12 for one that is empty or has
// a non-finite member.
#[tactic(auto, using(crate::proofs::OnePass::figures_are), unfolding(crate::specs::Inner::Gathered::measured, crate::specs::Inner::Gathered::gathered))]
fn measure(returns: &[f64]) -> Result<Figures, Answer>
    ensures { result ≡ measured returns.now }
{
    if returns.len() > MOST_RETURNS {
        return Err(Answer::TooLong);
    }
    if returns.is_empty() {
        return Err(Answer::BadSeries);
    }
    let gathered = gather(returns).ok_or(Answer::BadSeries)?;
    Ok(figures_of(returns.len() as u64, gathered))
}

// Compute performance metrics from a series of periodic returns.
#[tactic(auto, unfolding(crate::specs::Answers::metrics_of, crate::specs::Inner::Gathered::measured))]
pub fn compute_metrics(returns: &[f64]) -> Metrics
    ensures { result ≡ metrics_of returns.now }
{
    match measure(returns) {
        Ok(figures) => Metrics {
            answer: Answer::Done,
            figures,
        },
        Err(answer) => refused(answer),
    }
}
