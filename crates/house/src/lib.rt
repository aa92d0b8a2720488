// One figure for a group of accounts: document 02, "House return over a group of accounts".
#![tactic(auto)]

ghost use Rattle.std.specs.Prelude.{◌≡◌, ◌*◌, ◌≤◌, length, MatchResult};
ghost use Rattle.answer.specs.Numbers.{checked};
ghost use Rattle.answer.specs.declared.Answer.TheVariants.{Done};
ghost use Rattle.house.specs.Places.{group_in, good_marks};
ghost use Rattle.house.specs.House.{most_accounts, within, whole, early_answer, refusal, house_of_group, house_of};

mod entry;
mod growth;
mod low;
mod part;
mod sum;
mod total;

use crate::growth::grow;
use crate::part::sum_parts;
use crate::total::sum_group;
use answer::Answer;

pub const MOST_ACCOUNTS: u64 = 32;

pub const MOST_PARTS: u64 = 64;

// The report: after a refusal all but the answer is 0. The first places of a column are used, one for each account or each part.
// Kept: columns of all the places that there may be, since nothing here is on the heap.
// Kept: `answer` stands beside figures, since document 01 says "Each refusal returns its number with zero figures".
#[derive(Clone, Copy)]
pub struct House {
    pub answer: Answer,
    pub figure: f64,
    pub change: i64,
    pub changes: [i64; 32],
    pub firsts: [i64; 64],
    pub gains: [i64; 64],
    pub growths: [f64; 64],
}

#[tactic(auto, unfolding(crate::specs::House::refusal))]
fn refused(answer: Answer) -> House
    ensures { result ≡ refusal answer }
{
    House {
        answer,
        figure: 0.0,
        change: 0,
        changes: [0; 32],
        firsts: [0; 64],
        gains: [0; 64],
        growths: [0.0; 64],
    }
}

// No mark above 1. Every mark is looked at: a loop with no way out has no branch on them.
fn good_marks(marks: &[u8]) -> bool
    ensures { result ≡ good_marks marks.now }
{
    let mut good = true;
    for mark in marks {
        good &= *mark <= 1;
    }
    good
}

// From 1 to the most.
fn is_within(n: u64, most: u64) -> bool
    ensures { result ≡ within n most }
{
    (1..=most).contains(&n)
}

// Whether a group may have so many accounts.
pub fn good_group(accounts: u64) -> bool
    ensures { result ≡ within accounts most_accounts }
{
    is_within(accounts, MOST_ACCOUNTS)
}

// A mark and an equity for each end.
fn is_whole(n: u64, m: u64, marks: &[u8], equities: &[i64]) -> bool
    requires { (n ≤ 32) × (m ≤ 64) }
    ensures { result ≡ whole n m marks.now equities.now }
{
    let ends = 2 * (m * n);
    marks.len() as u64 == ends && equities.len() as u64 == ends
}

// What is asked before any sum.
fn early(accounts: u64, parts: u64, marks: &[u8], equities: &[i64]) -> Result<(), Answer>
    ensures { result ≡ checked (early_answer accounts parts marks.now equities.now) }
{
    if !good_group(accounts) {
        return Err(Answer::BadGroup);
    }
    if !is_within(parts, MOST_PARTS) || !is_whole(accounts, parts, marks, equities) {
        return Err(Answer::TooLong);
    }
    if !good_marks(marks) {
        return Err(Answer::BadSetting);
    }
    Ok(())
}

// The figures of a report that is empty before; after a refusal they are any. 15 is told before 14, wherever either stands: all sums are taken before a first
// sum is asked for.
fn fill(n: usize, m: usize, marks: &[u8], equities: &[i64], house: &mut House) -> Result<(), Answer>
    requires sizes { (n ≤ 32) × (m ≤ 64) × (length marks.now ≡ 2 * (m * n)) × (length equities.now ≡ 2 * (m * n)) }
    requires empty { house.old ≡ refusal Done }
    ensures { MatchResult result (λ done. house.new ≡ house_of_group n m (group_in n marks.now equities.now)) (λ answer. refusal answer ≡ house_of_group n m (group_in n marks.now equities.now)) }
{
    sum_parts(
        n,
        m,
        marks,
        equities,
        &mut house.firsts,
        &mut house.gains,
        &mut house.changes,
    )
    .ok_or(Answer::OutOfRange)?;
    house.change = sum_group(m, &house.gains).ok_or(Answer::OutOfRange)?;
    house.figure = grow(m, &house.firsts, &house.gains, &mut house.growths).ok_or(
        Answer::NoFirstSum,
    )?;
    Ok(())
}

fn report_of(n: usize, m: usize, marks: &[u8], equities: &[i64]) -> House
    requires { (n ≤ 32) × (m ≤ 64) × (length marks.now ≡ 2 * (m * n)) × (length equities.now ≡ 2 * (m * n)) }
    ensures { result ≡ house_of_group n m (group_in n marks.now equities.now) }
{
    let mut house = refused(Answer::Done);
    match fill(n, m, marks, equities, &mut house) {
        Ok(()) => house,
        Err(answer) => refused(answer),
    }
}

// Marks and equities stand part by part, in a part account by account, for each its first end and its last. A mark is 1 where the equity is there and 0
// where it is absent, and then the number does not matter.
pub fn house_return(accounts: u64, parts: u64, marks: &[u8], equities: &[i64]) -> House
    ensures { result ≡ house_of accounts parts marks.now equities.now }
{
    match early(accounts, parts, marks, equities) {
        Ok(()) => report_of(accounts as usize, parts as usize, marks, equities),
        Err(answer) => refused(answer),
    }
}
