// Tests on one list of a call.
ghost use Rattle.std.specs.Prelude.{◌≡◌};
ghost use Rattle.table.specs.Keyed.{ascending};
ghost use Rattle.call_lists.specs.Lists.{among, first_bad, first_unpriced, first_repeat, place_in};

use position::Symbol;
use table::ascends;

// The index of the first symbol that is bad.
pub fn first_bad(symbols: &[u64]) -> Option<usize>
    ensures { result ≡ place_in symbols.now (first_bad symbols.now) }
{
    symbols.iter().position(|symbol| !Symbol(*symbol).is_good())
}

// The index of the first price that is below 1.
pub fn first_unpriced(prices: &[i64]) -> Option<usize>
    ensures { result ≡ place_in prices.now (first_unpriced prices.now) }
{
    for (i, price) in prices.iter().enumerate() {
        if *price < 1 {
            return Some(i);
        }
    }
    None
}

// Whether each symbol is above the one before it.
pub fn is_ascending(symbols: &[u64]) -> bool
    ensures { result ≡ ascending symbols.now }
{
    ascends(symbols, symbols.len())
}

// Whether the symbol stands in the list.
pub fn is_among(symbol: u64, symbols: &[u64]) -> bool
    ensures { result ≡ among symbol symbols.now }
{
    symbols.contains(&symbol)
}

// The least index whose symbol stands before it in the list. A list that ascends, as most do, needs one look at each symbol.
pub fn first_repeat(symbols: &[u64]) -> Option<usize>
    ensures { result ≡ place_in symbols.now (first_repeat symbols.now) }
{
    if is_ascending(symbols) {
        return None;
    }
    for (i, symbol) in symbols.iter().enumerate() {
        if is_among(*symbol, &symbols[..i]) {
            return Some(i);
        }
    }
    None
}
