// The return of one period, over and over.
ghost use Rattle.std.specs.Prelude.{◌≡◌};
ghost use Rattle.c_timed.specs.Made.{leave};
ghost use Rattle.c_timed.specs.Calls.{return_call, returns_in};

use crate::made::{leave, too_long};
use account::{Account, Changed};
use account_bytes::account_in;
use list_bytes::read_prices;
use portfolio::record_return;

// Each starts from the account as given, and writes the same places of two series of 64. The last one's answer; there is always one.
fn returns(a: Account, symbols: &[u64], prices: &[i64], times: u64) -> Changed
    ensures { result ≡ return_call a symbols.now prices.now }
{
    let mut equities = [0i64; 64];
    let mut changes = [0.0f64; 64];
    let mut last = record_return(a, symbols, prices, &mut equities[..], &mut changes[..]);
    for _ in 1..times {
        last = record_return(a, symbols, prices, &mut equities[..], &mut changes[..]);
    }
    last
}

// The last one's answer, as a number. Account and prices are read once.
#[unsafe(no_mangle)]
pub extern "C" fn direct_return(account: &[u8], prices: &[u8], times: u64, after: &mut [u8]) -> u64
    ensures { leave result after.new ≡ returns_in account.now prices.now after.old }
{
    let a = account_in(account);
    let Some(p) = read_prices(prices) else {
        return too_long(a);
    };
    if after.len() != account.len() {
        return too_long(a);
    }
    let priced = &p.symbol[..p.count];
    let cents = &p.price[..p.count];
    leave(returns(a, priced, cents, times), after)
}
