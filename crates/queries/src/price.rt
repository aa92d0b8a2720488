// The prices of the positions, each at its position's place.
ghost use Rattle.std.specs.Prelude.{◌≡◌, ◌≤◌};
ghost use Rattle.answer.specs.declared.Answer.TheVariants.{Done};
ghost use Rattle.call_lists.specs.Lists.{price_of};
ghost use Rattle.call_lists.specs.Checks.{prices_answer};
ghost use Rattle.queries.specs.Inner.Places.{Looks, PricesOf};

use call_lists::{is_ascending, quote, sort_prices};

// In a list whose symbols ascend. Symbols that ascend likely find their prices each at the place after the last.
fn looked_up(symbol: &[u64; 64], n: usize, symbols: &[u64], prices: &[i64]) -> [i64; 64]
    requires { n ≤ 64 }
    ensures { Looks n symbol.now symbols.now prices.now result }
{
    let mut price = [0i64; 64];
    let mut hint = 0usize;
    for i in 0..n {
        let q = quote(symbols, prices, symbol[i], hint);
        hint = q.next;
        price[i] = q.price;
    }
    price
}

// Prices whose symbols ascend are used in place; others are sorted first.
pub(crate) fn prices_of(symbol: &[u64; 64], n: usize, symbols: &[u64], prices: &[i64]) -> [i64; 64]
    requires { (n ≤ 64) × (prices_answer symbols.now prices.now ≡ Done) }
    ensures { PricesOf (price_of symbols.now prices.now) n symbol.now result }
{
    if is_ascending(symbols) {
        return looked_up(symbol, n, symbols, prices);
    }
    let mut keys = [0u64; 128];
    let mut values = [0i64; 128];
    let m = sort_prices(symbols, prices, &mut keys[..], &mut values[..]);
    looked_up(symbol, n, &keys[..m], &values[..m])
}
