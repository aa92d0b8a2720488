// The quotients that the figures are made of.
ghost use Rattle.std.specs.Prelude.{◌≡◌};
ghost use Rattle.metrics.specs.Ratio.{win_rate_of, mean, gain_over_loss, kelly_of};

use doubles::{is_finite, u64_to_f64};

#[tactic(auto, unfolding(crate::specs::Ratio::win_rate_of))]
pub(crate) fn win_rate(winning_periods: u64, num_periods: u64) -> f64
    ensures { result ≡ win_rate_of winning_periods num_periods }
{
    u64_to_f64(winning_periods) / u64_to_f64(num_periods)
}

// The mean of `count` returns that come to `sum`, and 0 of none.
#[tactic(auto, unfolding(crate::specs::Ratio::mean))]
pub(crate) fn mean(sum: f64, count: u64) -> f64
    ensures { result ≡ mean sum count }
{
    if count > 0 {
        sum / u64_to_f64(count)
    } else {
        0.0
    }
}

// A gain over the loss that stands against it. Exact zero check is appropriate:
// a loss is exactly 0.0 when there are no negative returns.
#[tactic(auto, unfolding(crate::specs::Ratio::gain_over_loss))]
pub(crate) fn gain_over_loss(gain: f64, loss: f64) -> f64
    ensures { result ≡ gain_over_loss gain loss }
{
    if loss != 0.0 {
        gain / loss.abs()
    } else if gain > 0.0 {
        f64::INFINITY
    } else {
        0.0
    }
}

// Kelly criterion: w - (1 - w) / b
#[tactic(auto, unfolding(crate::specs::Ratio::kelly_of))]
pub(crate) fn kelly(win_rate: f64, payoff_ratio: f64) -> f64
    ensures { result ≡ kelly_of win_rate payoff_ratio }
{
    if payoff_ratio > 0.0 && is_finite(payoff_ratio) {
        win_rate - (1.0 - win_rate) / payoff_ratio
    } else {
        0.0
    }
}
