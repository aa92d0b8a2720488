// The sums of each part, and with them those of each account.
ghost use Rattle.std.specs.Prelude.{◌≡◌, false, ◌+◌, ◌*◌, ◌≤◌, ◌&&◌, length, replicate, pos, MatchOption};
ghost use Rattle.house.specs.Group.{part_in_i64};
ghost use Rattle.house.specs.Places.{group_in};
ghost use Rattle.house.specs.Inner.Parts.{SumsWithRoom, Added, in_range, Summed};

use crate::entry::entry_of;
use crate::low::sum_low;
use crate::sum::{finish, plus, raise, start};
use crate::total::sum_accounts;
use sums::Wide;

// 2^56: what the low words' spread is below where they are enough.
pub(crate) const SMALL: u64 = 0x100_0000_0000_0000;

#[derive(Clone, Copy)]
struct Part {
    first: i64,
    gain: i64,
}

// The part p, and each account's change in its own total too. None where a change or a sum of the part is not in i64.
fn sum_part(
    n: usize,
    p: usize,
    marks: &[u8],
    equities: &[i64],
    totals: &mut [Wide; 32],
) -> Option<Part>
    requires n_bound { (n ≤ 32) × (2 * (p * n + n) ≤ length marks.now) × (2 * (p * n + n) ≤ length equities.now) }
    requires sums_with_room { SumsWithRoom totals.old }
    ensures { MatchOption result (part_in_i64 n (group_in n marks.now equities.now) p ≡ false) (λ part. Added n p (group_in n marks.now equities.now) part totals.old totals.new) }
{
    let mut first = start(n as u64);
    let mut gain = first;
    for a in 0..n {
        let k = 2 * (p * n + a);
        let entry = entry_of(marks[k], marks[k + 1], equities[k], equities[k + 1])?;
        let change = raise(entry.change);
        first = plus(first, raise(entry.first));
        gain = plus(gain, change);
        totals[a] = plus(totals[a], change);
    }
    let first = finish(first, n as u64)?;
    let gain = finish(gain, n as u64)?;
    Some(Part { first, gain })
}

// With both words. None where a change or a finished sum of a part or of an account is not in i64.
fn sum_exactly(
    n: usize,
    m: usize,
    marks: &[u8],
    equities: &[i64],
    firsts: &mut [i64; 64],
    gains: &mut [i64; 64],
    changes: &mut [i64; 32],
) -> Option<()>
    requires { (n ≤ 32) × (m ≤ 64) × (length marks.now ≡ 2 * (m * n)) × (length equities.now ≡ 2 * (m * n)) }
    ensures { MatchOption result (in_range n m (group_in n marks.now equities.now) ≡ false) (λ done. Summed n m (group_in n marks.now equities.now) firsts.new gains.new changes.new) }
{
    *firsts = [0; 64];
    *gains = [0; 64];
    *changes = [0; 32];
    let mut totals = [start(m as u64); 32];
    for p in 0..m {
        let part = sum_part(n, p, marks, equities, &mut totals)?;
        firsts[p] = part.first;
        gains[p] = part.gain;
    }
    sum_accounts(n, m, &totals, changes)
}

// By low words alone where they are enough, which no everyday amounts are beyond; else with both. By part and by account all sums of small amounts are in
// i64. Of each part its first sum and its summed change, and of each account its change, into columns that are empty before.
pub(crate) fn sum_parts(
    n: usize,
    m: usize,
    marks: &[u8],
    equities: &[i64],
    firsts: &mut [i64; 64],
    gains: &mut [i64; 64],
    changes: &mut [i64; 32],
) -> Option<()>
    requires sizes { (n ≤ 32) × (m ≤ 64) × (length marks.now ≡ 2 * (m * n)) × (length equities.now ≡ 2 * (m * n)) }
    requires empty { (firsts.old ≡ replicate 64 (pos 0)) × (gains.old ≡ replicate 64 (pos 0)) × (changes.old ≡ replicate 32 (pos 0)) }
    ensures { MatchOption result (in_range n m (group_in n marks.now equities.now) ≡ false) (λ done. Summed n m (group_in n marks.now equities.now) firsts.new gains.new changes.new) }
{
    let spread = sum_low(n, m, marks, equities, firsts, gains, changes);
    if spread < SMALL {
        Some(())
    } else {
        sum_exactly(n, m, marks, equities, firsts, gains, changes)
    }
}
