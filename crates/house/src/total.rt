// The change of each account, and of the group, over the whole period.
ghost use Rattle.std.specs.Prelude.{◌≡◌, false, ◌≤◌, replicate, pos, slice_index_or, MatchOption};
ghost use Rattle.house.specs.Group.{sum_to, every};
ghost use Rattle.house.specs.Inner.Raised.{fitting};
ghost use Rattle.house.specs.Inner.Parts.{total_fits, Totalled};

use crate::sum::{finish, plus, raise, start};
use sums::Wide;

// None where an account's change is not in i64. The column of changes is empty before.
pub(crate) fn sum_accounts(
    n: usize,
    m: usize,
    totals: &[Wide; 32],
    changes: &mut [i64; 32],
) -> Option<()>
    requires n_bound { n ≤ 32 }
    requires empty { changes.old ≡ replicate 32 (pos 0) }
    ensures { MatchOption result (every n (total_fits m totals.now) ≡ false) (λ done. Totalled n m totals.now changes.new) }
{
    for a in 0..n {
        changes[a] = finish(totals[a], m as u64)?;
    }
    Some(())
}

// None where the group's change is not in i64.
pub(crate) fn sum_group(m: usize, gains: &[i64; 64]) -> Option<i64>
    requires { m ≤ 64 }
    ensures { result ≡ fitting (sum_to m (λ p. slice_index_or gains.now p (pos 0))) }
{
    let mut sum = start(m as u64);
    for p in 0..m {
        sum = plus(sum, raise(gains[p]));
    }
    finish(sum, m as u64)
}
