// The low words of the sums alone, for amounts so small that no sum needs more: then the upper words are what they are of any sum that is in i64.
ghost use Rattle.std.specs.Prelude.{◌≡◌, ℕ, ◌+◌, ◌*◌, ◌^◌, ◌<◌, ◌≤◌, length, if◌then◌else◌, bit_or, replicate, pos, slice_index};
ghost use Rattle.std.specs.Int.{w64, cast_unsigned};
ghost use Rattle.house.specs.Places.{group_in};
ghost use Rattle.house.specs.Inner.Low.{away, step, LowAdded, LowSummed};

use crate::entry::present;
use crate::part::SMALL;
use crate::sum::{HALF, lower};

// 2^55, from 0 either way: so 64 changes, each below 2^56, add up to less than 2^63, and so do 32 first equities. The group's change may not, and is asked
// with both words.
const REACH: u64 = 0x80_0000_0000_0000;

#[derive(Clone, Copy)]
struct LowPart {
    first: u64,
    gain: u64,
    spread: u64,
}

fn word_if(there: bool, x: i64) -> u64
    ensures { result ≡ (if there then cast_unsigned w64 x else 0) }
{
    let w = x.cast_unsigned();
    if there { w } else { 0 }
}

// Of an account its first equity, its change, both as words, and how far both ends are from 0.
#[tactic(auto, unfolding(crate::specs::Inner::Low::away, crate::specs::Inner::Low::step))]
fn low_entry(from: u64, to: u64) -> LowPart
    ensures { (result.first ≡ from) × (result.gain ≡ step from to) × (result.spread ≡ bit_or (away from) (away to)) }
{
    LowPart {
        first: from,
        gain: to.wrapping_sub(from),
        spread: from.wrapping_add(REACH) | to.wrapping_add(REACH),
    }
}

// The loop has no way out and no branch but its end.
fn sum_low_part(n: usize, p: usize, marks: &[u8], equities: &[i64], lo: &mut [u64; 32]) -> LowPart
    requires n_bound { (n ≤ 32) × (2 * (p * n + n) ≤ length marks.now) × (2 * (p * n + n) ≤ length equities.now) }
    requires lo_len { (length lo.old ≡ 32) × ((i : ℕ) → i < 32 → slice_index lo.old i < 2 ^ 64) }
    ensures { LowAdded n p (group_in n marks.now equities.now) result lo.old lo.new }
{
    let mut first = HALF;
    let mut gain = HALF;
    let mut spread = 0u64;
    for a in 0..n {
        let k = 2 * (p * n + a);
        let there = present(marks[k], marks[k + 1]);
        let e = low_entry(word_if(there, equities[k]), word_if(there, equities[k + 1]));
        first = first.wrapping_add(e.first);
        gain = gain.wrapping_add(e.gain);
        lo[a] = lo[a].wrapping_add(e.gain);
        spread |= e.spread;
    }
    LowPart {
        first,
        gain,
        spread,
    }
}

// The sums as they are where every equity that counts is within reach of 0, into columns that are empty before, and whether it is: then the spread that is
// returned is below 2^56. Else it ends after the first part that has one beyond.
pub(crate) fn sum_low(
    n: usize,
    m: usize,
    marks: &[u8],
    equities: &[i64],
    firsts: &mut [i64; 64],
    gains: &mut [i64; 64],
    changes: &mut [i64; 32],
) -> u64
    requires sizes { (n ≤ 32) × (m ≤ 64) × (length marks.now ≡ 2 * (m * n)) × (length equities.now ≡ 2 * (m * n)) }
    requires empty { (firsts.old ≡ replicate 64 (pos 0)) × (gains.old ≡ replicate 64 (pos 0)) × (changes.old ≡ replicate 32 (pos 0)) }
    ensures { result < 2 ^ 56 → LowSummed n m (group_in n marks.now equities.now) result firsts.new gains.new changes.new }
{
    let mut lo = [HALF; 32];
    let mut spread = 0u64;
    for p in 0..m {
        let part = sum_low_part(n, p, marks, equities, &mut lo);
        firsts[p] = lower(part.first);
        gains[p] = lower(part.gain);
        spread |= part.spread;
        if SMALL <= spread {
            return spread;
        }
    }
    for a in 0..n {
        changes[a] = lower(lo[a]);
    }
    spread
}
