// The house return through the C interface: marks as bytes, equities and what is told as plain numbers.
#![tactic(auto)]

ghost use Rattle.std.specs.Prelude.{◌≡◌, ◌∷◌, ◌+◌, ◌-◌, ◌≤◌, length, take};
ghost use Rattle.answer.specs.Numbers.{checked};
ghost use Rattle.c_house.specs.Lent.{lent, places, told, house_told};
ghost use Rattle.c_house.specs.Inner.Asked.{first_answer};

use answer::{Answer, is_done, number};
use house::{good_group, house_return};

// One value, and after it the first of a column, as many as there are places.
fn put_after<T: Copy>(first: T, column: &[T], places: &mut [T])
    requires { (1 ≤ length places.old) × (length places.old ≤ 1 + length column.now) }
    ensures { places.new ≡ first ∷ take (length places.old - 1) column.now }
{
    let n = places.len() - 1;
    places[0] = first;
    places[1..].copy_from_slice(&column[..n]);
}

// The first sums of a column, as many as there are places.
fn put_sums(sums: &[i64; 64], places: &mut [i64])
    requires { length places.old ≤ 64 }
    ensures { places.new ≡ take (length places.old) sums.now }
{
    places.copy_from_slice(&sums[..places.len()]);
}

// Whether the places to write are as many as they must be. The parts are compared with a length first, so that one more can't overflow.
fn has_places(
    accounts: u64,
    parts: u64,
    rates: &[f64],
    changes: &[i64],
    firsts: &[i64],
    gains: &[i64],
) -> bool
    requires { accounts ≤ 32 }
    ensures { result ≡ places accounts parts (lent rates.now changes.now firsts.now gains.now) }
{
    firsts.len() as u64 == parts
        && gains.len() as u64 == parts
        && rates.len() as u64 == parts + 1
        && changes.len() as u64 == accounts + 1
}

// What is asked before the report: a group, and places for what is told of it.
fn asked(
    accounts: u64,
    parts: u64,
    rates: &[f64],
    changes: &[i64],
    firsts: &[i64],
    gains: &[i64],
) -> Result<(), Answer>
    ensures { result ≡ checked (first_answer accounts parts (lent rates.now changes.now firsts.now gains.now)) }
{
    if !good_group(accounts) {
        return Err(Answer::BadGroup);
    }
    if !has_places(accounts, parts, rates, changes, firsts, gains) {
        return Err(Answer::TooLong);
    }
    Ok(())
}

// After 0 the rates are the figure and each part's growth, the changes the group's and each account's, the firsts and the gains each part's first sum and
// summed change. A refusal leaves all of them as found.
#[unsafe(no_mangle)]
pub extern "C" fn tc_house_return(
    accounts: u64,
    parts: u64,
    marks: &[u8],
    equities: &[i64],
    rates: &mut [f64],
    changes: &mut [i64],
    firsts: &mut [i64],
    gains: &mut [i64],
) -> u64
    ensures { told result (lent rates.new changes.new firsts.new gains.new) ≡ house_told accounts parts marks.now equities.now (lent rates.old changes.old firsts.old gains.old) }
{
    if let Err(answer) = asked(accounts, parts, rates, changes, firsts, gains) {
        return number(answer);
    }
    let house = house_return(accounts, parts, marks, equities);
    if !is_done(house.answer) {
        return number(house.answer);
    }
    put_after(house.figure, &house.growths, rates);
    put_after(house.change, &house.changes, changes);
    put_sums(&house.firsts, firsts);
    put_sums(&house.gains, gains);
    0
}
