// Growth in binary64, part by part, and the figure.
ghost use Rattle.std.specs.Prelude.{◌≡◌, false, ◌≤◌, replicate, MatchOption};
ghost use Rattle.metrics.specs.Double.{zero};
ghost use Rattle.house.specs.Group.{every};
ghost use Rattle.house.specs.Inner.Parts.{is_positive, Grown};

use doubles::i64_to_f64;

// "A part's growth is its summed change over its first sum, and 1 plus each growth is multiplied in part order". None where a
// first sum is not positive, else the figure. The column of growths is empty before.
pub(crate) fn grow(
    m: usize,
    firsts: &[i64; 64],
    gains: &[i64; 64],
    growths: &mut [f64; 64],
) -> Option<f64>
    requires m_bound { m ≤ 64 }
    requires empty { growths.old ≡ replicate 64 zero }
    ensures { MatchOption result (every m (is_positive firsts.now) ≡ false) (λ figure. Grown m firsts.now gains.now figure growths.new) }
{
    let mut product = 1.0;
    for p in 0..m {
        let first = firsts[p];
        let positive = 0 < first;
        if !positive {
            return None;
        }
        let growth = i64_to_f64(gains[p]) / i64_to_f64(first);
        growths[p] = growth;
        product *= 1.0 + growth;
    }
    Some(product - 1.0)
}
