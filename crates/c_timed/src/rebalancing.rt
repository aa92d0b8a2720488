// A rebalance of one account, over and over.
ghost use Rattle.std.specs.Prelude.{◌≡◌};
ghost use Rattle.c_timed.specs.Made.{leave};
ghost use Rattle.c_timed.specs.Calls.{rebalance_call, rebalances_in};

use crate::made::{leave, too_long};
use account::{Account, Changed};
use account_bytes::account_in;
use fills::ExecutionKind;
use list_bytes::{read_prices, read_targets};
use portfolio::rebalance_simple;

// Each starts from the account as given, and has room for every record. The last one's answer; there is always one.
fn rebalances(
    a: Account,
    targets: &[u64],
    weights: &[f64],
    symbols: &[u64],
    prices: &[i64],
    times: u64,
) -> Changed
    ensures { result ≡ rebalance_call a targets.now weights.now symbols.now prices.now }
{
    let mut words = [0u64; 256];
    let mut ints = [0i64; 512];
    let mut last = rebalance_simple(
        a,
        targets,
        weights,
        symbols,
        prices,
        0,
        ExecutionKind::Rebalance,
        &mut words[..],
        &mut ints[..],
    );
    for _ in 1..times {
        last = rebalance_simple(
            a,
            targets,
            weights,
            symbols,
            prices,
            0,
            ExecutionKind::Rebalance,
            &mut words[..],
            &mut ints[..],
        );
    }
    Changed {
        answer: last.answer,
        account: last.account,
    }
}

// The last one's answer, as a number. Account and lists are read once.
#[unsafe(no_mangle)]
pub extern "C" fn direct_rebalance(
    account: &[u8],
    targets: &[u8],
    prices: &[u8],
    times: u64,
    after: &mut [u8],
) -> u64
    ensures { leave result after.new ≡ rebalances_in account.now targets.now prices.now after.old }
{
    let a = account_in(account);
    let Some(t) = read_targets(targets) else {
        return too_long(a);
    };
    let Some(p) = read_prices(prices) else {
        return too_long(a);
    };
    if after.len() != account.len() {
        return too_long(a);
    }
    let wanted = &t.symbol[..t.count];
    let weights = &t.weight[..t.count];
    let priced = &p.symbol[..p.count];
    let cents = &p.price[..p.count];
    leave(rebalances(a, wanted, weights, priced, cents, times), after)
}
