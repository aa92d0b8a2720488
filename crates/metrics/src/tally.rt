// The winning and the losing returns: how many, and what they come to.
ghost use Rattle.std.specs.Prelude.{◌≡◌, ◌<◌};
ghost use Rattle.metrics.specs.Tally.{most_returns};
ghost use Rattle.metrics.specs.Inner.Tally.{counted_if, summed_if, no_returns, tally_after};

#[derive(Clone, Copy)]
pub(crate) struct Tally {
    pub(crate) winning_periods: u64,
    pub(crate) losing_periods: u64,
    pub(crate) sum_positive: f64,
    pub(crate) sum_negative: f64,
}

// One more where the return counts.
fn counted(n: u64, counts: bool) -> u64
    requires { n < most_returns }
    ensures { result ≡ counted_if n counts }
{
    n + u64::from(counts)
}

// The sum with the return where it counts. Else -0.0 is added, which leaves every double as it is: a sum that is
// always taken needs no branch on the return's sign, which no processor can foretell.
fn summed(sum: f64, counts: bool, r: f64) -> f64
    ensures { result ≡ summed_if sum counts r }
{
    let added = if counts { r } else { -0.0 };
    sum + added
}

impl Tally {
    // Before the first return. The Rust's `sum` starts at -0.0, which shows only in the sign of a sum of nothing.
    pub(crate) fn start() -> Self
        ensures { result ≡ no_returns }
    {
        Tally {
            winning_periods: 0,
            losing_periods: 0,
            sum_positive: 0.0,
            sum_negative: 0.0,
        }
    }

    // After one more return.
    #[tactic(auto, unfolding(crate::specs::Inner::Tally::tally_after))]
    pub(crate) fn after(self, r: f64) -> Self
        requires { (self.winning_periods < most_returns) × (self.losing_periods < most_returns) }
        ensures { result ≡ tally_after self r }
    {
        let wins = r > 0.0;
        let loses = r < 0.0;
        Tally {
            winning_periods: counted(self.winning_periods, wins),
            losing_periods: counted(self.losing_periods, loses),
            sum_positive: summed(self.sum_positive, wins, r),
            sum_negative: summed(self.sum_negative, loses, r),
        }
    }
}
