// The price that a list gives a symbol.
ghost use Rattle.std.specs.Prelude.{◌≡◌, pos, get_or};
ghost use Rattle.call_lists.specs.Inner.Quotes.{Quotes};

use crate::price::Quote;
use table::{Found, find};

// The price at a place, 0 past the last.
fn price_at(prices: &[i64], i: usize) -> i64
    ensures { result ≡ get_or prices.now i (pos 0) }
{
    prices.get(i).copied().unwrap_or(0)
}

// The price of a symbol in a list whose symbols ascend, as the caller has checked once for all its lookups.
// Symbols looked up in ascending order are likely found at the hinted place; the price does not depend on the hint.
pub fn quote(symbols: &[u64], prices: &[i64], symbol: u64, hint: usize) -> Quote
    ensures { Quotes symbols.now prices.now symbol result }
{
    match find(symbols, symbols.len(), symbol, hint) {
        Found::At(i) => Quote {
            price: price_at(prices, i),
            next: i + 1,
        },
        Found::Absent(i) => Quote { price: 0, next: i },
    }
}
