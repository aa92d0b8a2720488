// The equity that compounded returns make of 1, its highest value and its deepest fall from there.
ghost use Rattle.std.specs.Prelude.{◌≡◌};
ghost use Rattle.metrics.specs.Curve.{raised, flat, curve_after};

#[derive(Clone, Copy)]
pub(crate) struct Curve {
    pub(crate) equity: f64,
    pub(crate) peak: f64,
    pub(crate) max_drawdown: f64,
}

// The other value where it is above the first. A NaN is above nothing.
// Kept: `f64::max` gives the other number where one is a NaN, and here a NaN stays.
#[tactic(auto, unfolding(crate::specs::Curve::raised))]
fn raised(value: f64, other: f64) -> f64
    ensures { result ≡ raised value other }
{
    if other > value { other } else { value }
}

impl Curve {
    // Before the first return.
    pub(crate) fn start() -> Self
        ensures { result ≡ flat }
    {
        Curve {
            equity: 1.0,
            peak: 1.0,
            max_drawdown: 0.0,
        }
    }

    // After one more return.
    #[tactic(auto, unfolding(crate::specs::Curve::curve_after, crate::specs::Curve::compounded, crate::specs::Curve::fallen))]
    pub(crate) fn after(self, r: f64) -> Self
        ensures { result ≡ curve_after self r }
    {
        let equity = self.equity * (1.0 + r);
        let peak = raised(self.peak, equity);
        let dd = (peak - equity) / peak;
        Curve {
            equity,
            peak,
            max_drawdown: raised(self.max_drawdown, dd),
        }
    }
}
