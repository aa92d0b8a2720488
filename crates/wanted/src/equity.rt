// What the positions are worth at the listed prices.
ghost use Rattle.std.specs.Prelude.{◌≡◌};
ghost use Rattle.wanted.specs.Inner.Equity.{Worth};

use call_lists::quote;
use table::used;

// "the finished sum of position values in symbol order, each step saturating; a missing price counts 0". Symbols that ascend likely
// find their prices each at the place after the last.
pub fn total_worth<'a>(
    symbol: &'a [u64; 64],
    quantity: &'a [i64; 64],
    n: usize,
    symbols: &[u64],
    prices: &[i64],
) -> i64
    ensures { Worth symbol.now quantity.now n symbols.now prices.now result }
{
    let m = used(n, 64);
    let mut sum = 0;
    let mut hint = 0;
    for (key, held) in symbol[..m].iter().zip(&quantity[..m]) {
        let q = quote(symbols, prices, *key, hint);
        hint = q.next;
        sum = sums::saturating_add(sum, sums::value(*held, q.price));
    }
    sum
}
