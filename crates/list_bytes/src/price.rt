// A price list: each entry a symbol and the price of it in cents.
ghost use Rattle.std.specs.Prelude.{◌≡◌};
ghost use Rattle.list_bytes.specs.Inner.Lists.{entry_columns, prices_into, prices_of};

use crate::entry::{entries_into, is_whole};

// "at most [..] 128 prices"
const MOST_PRICES: usize = 128;

// The first `count` places of each column; all others are 0.
#[derive(Clone, Copy)]
pub struct Prices {
    pub count: usize,
    pub symbol: [u64; 128],
    pub price: [i64; 128],
}

// The entries into the first places of two columns, and how many there are. The rest is as found; of a list that is not whole nothing is read.
pub fn prices_into(bytes: &[u8], symbol: &mut [u64; 128], price: &mut [i64; 128]) -> usize
    ensures { entry_columns result symbol.new price.new ≡ prices_into bytes.now symbol.old price.old }
{
    entries_into(bytes, symbol, price)
}

// Kept beside `read_targets`: what each gives is a type of its own, which `prices_of` and `targets_of` name with its fields.
pub fn read_prices(bytes: &[u8]) -> Option<Prices>
    ensures { result ≡ prices_of bytes.now }
{
    if !is_whole(bytes.len(), MOST_PRICES) {
        return None;
    }
    let mut symbol = [0; 128];
    let mut price = [0; 128];
    let count = prices_into(bytes, &mut symbol, &mut price);
    Some(Prices {
        count,
        symbol,
        price,
    })
}
