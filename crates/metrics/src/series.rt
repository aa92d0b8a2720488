// One pass over a return series.
ghost use Rattle.std.specs.Prelude.{◌≡◌, ◌≤◌, length};
ghost use Rattle.metrics.specs.Tally.{most_returns};
ghost use Rattle.metrics.specs.Inner.Gathered.{gathered};

use crate::curve::Curve;
use crate::tally::Tally;
use doubles::{all_finite, is_finite};

// What the returns so far have come to.
#[derive(Clone, Copy)]
pub(crate) struct Gathered {
    pub(crate) curve: Curve,
    pub(crate) tally: Tally,
}

// The figures' passes over the series in one: each reads the returns in the same order. None where a return is not finite:
// after one no equity is, so the returns are looked at one by one only where the equity at the end is not finite.
pub(crate) fn gather(returns: &[f64]) -> Option<Gathered>
    requires { length returns.now ≤ most_returns }
    ensures { result ≡ gathered returns.now }
{
    let mut curve = Curve::start();
    let mut tally = Tally::start();
    for r in returns {
        curve = curve.after(*r);
        tally = tally.after(*r);
    }
    if is_finite(curve.equity) || all_finite(returns) {
        Some(Gathered { curve, tally })
    } else {
        None
    }
}
