// What the lists of a call are refused for.
ghost use Rattle.std.specs.Prelude.{◌≡◌};
ghost use Rattle.answer.specs.Numbers.{checked};
ghost use Rattle.call_lists.specs.Checks.{lists_answer, prices_answer};

use crate::list::{first_bad, first_repeat, first_unpriced};
use answer::{Answer, Entry};
use doubles::all_finite;

// Targets with their weights, and symbols with their prices, refused in the order 6, 2, 3, 5, 4 with the first entry that is bad, targets before prices, or done.
pub fn check_lists(
    targets: &[u64],
    weights: &[f64],
    symbols: &[u64],
    prices: &[i64],
) -> Result<(), Answer>
    ensures { result ≡ checked (lists_answer targets.now weights.now symbols.now prices.now) }
{
    if targets.len() > 64 || targets.len() != weights.len() {
        return Err(Answer::TooLong);
    }
    if symbols.len() > 128 || symbols.len() != prices.len() {
        return Err(Answer::TooLong);
    }
    if let Some(bad_target) = first_bad(targets) {
        return Err(Answer::BadSymbol(Entry::Target(bad_target)));
    }
    if let Some(bad_symbol) = first_bad(symbols) {
        return Err(Answer::BadSymbol(Entry::Price(bad_symbol)));
    }
    if let Some(target_again) = first_repeat(targets) {
        return Err(Answer::Twice(Entry::Target(target_again)));
    }
    if let Some(symbol_again) = first_repeat(symbols) {
        return Err(Answer::Twice(Entry::Price(symbol_again)));
    }
    if !all_finite(weights) {
        return Err(Answer::BadWeight);
    }
    if let Some(unpriced) = first_unpriced(prices) {
        return Err(Answer::BadPrice(Entry::Price(unpriced)));
    }
    Ok(())
}

// The same of a call with prices alone.
pub fn check_prices(symbols: &[u64], prices: &[i64]) -> Result<(), Answer>
    ensures { result ≡ checked (prices_answer symbols.now prices.now) }
{
    check_lists(&[], &[], symbols, prices)
}
