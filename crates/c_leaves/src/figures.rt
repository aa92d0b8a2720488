// The figures of a return series, given in lent places.
ghost use Rattle.std.specs.Prelude.{◌≡◌, length};
ghost use Rattle.c_leaves.specs.Lent.{rates_of, counts_of, answer_to_figures, rates_after, counts_after};

use answer::Answer;
use metrics::Figures;

fn put_rates(rates: &mut [f64], f: Figures)
    requires { length rates.old ≡ 6 }
    ensures { rates.new ≡ rates_of f }
{
    rates.copy_from_slice(&[
        f.total_return,
        f.max_drawdown,
        f.win_rate,
        f.profit_factor,
        f.payoff_ratio,
        f.kelly,
    ]);
}

fn put_counts(counts: &mut [u64], f: Figures)
    requires { length counts.old ≡ 3 }
    ensures { counts.new ≡ counts_of f }
{
    counts.copy_from_slice(&[f.num_periods, f.winning_periods, f.losing_periods]);
}

// After 0 the six rates are total return, maximum drawdown, win rate, profit factor, payoff ratio and Kelly, and the three counts those of all, of
// winning and of losing returns. A refusal leaves both as found; places of another length answer 6.
#[unsafe(no_mangle)]
pub extern "C" fn tc_figures(returns: &[f64], rates: &mut [f64], counts: &mut [u64]) -> u64
    ensures value { result ≡ answer_to_figures returns.now rates.old counts.old }
    ensures rates_after { rates.new ≡ rates_after returns.now rates.old counts.old }
    ensures counts_after { counts.new ≡ counts_after returns.now rates.old counts.old }
{
    if rates.len() != 6 || counts.len() != 3 {
        return answer::number(Answer::TooLong);
    }
    let metrics = metrics::compute_metrics(returns);
    let number = answer::number(metrics.answer);
    if number != 0 {
        return number;
    }
    put_rates(rates, metrics.figures);
    put_counts(counts, metrics.figures);
    0
}
