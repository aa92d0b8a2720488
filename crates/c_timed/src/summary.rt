// A snapshot of one account, over and over.
ghost use Rattle.std.specs.Prelude.{◌≡◌};
ghost use Rattle.queries.specs.Answers.{told_snapshot};
ghost use Rattle.c_timed.specs.Made.{leave_both, left_both};
ghost use Rattle.c_timed.specs.Calls.{snapshots_in};

use crate::made::too_long;
use account::Account;
use account_bytes::account_in;
use answer::{Answer, is_done};
use list_bytes::{read_prices, write_figures, write_weights};
use queries::{Snapshot, snapshot};

// The last one; there is always one.
fn snapshots(a: Account, symbols: &[u64], prices: &[i64], times: u64) -> Snapshot
    ensures { result ≡ told_snapshot a symbols.now prices.now }
{
    let mut last = snapshot(a, symbols, prices);
    for _ in 1..times {
        last = snapshot(a, symbols, prices);
    }
    last
}

fn leave_both(s: Snapshot, figures: &mut [u8], weights: &mut [u8]) -> u64
    ensures { leave_both result figures.new weights.new ≡ left_both s figures.old weights.old }
{
    if !is_done(s.answer) {
        return answer::word(s.answer);
    }
    write_figures(
        s.cash,
        s.equity,
        s.num_positions,
        s.total_realized_pnl,
        figures,
    );
    let w = s.weights;
    write_weights(w.count, w.symbol, w.weight, weights);
    answer::word(Answer::Done)
}

// The last one's answer, as a number. Account and prices are read once.
#[unsafe(no_mangle)]
pub extern "C" fn direct_snapshot(
    account: &[u8],
    prices: &[u8],
    times: u64,
    figures: &mut [u8],
    weights: &mut [u8],
) -> u64
    ensures { leave_both result figures.new weights.new
        ≡ snapshots_in account.now prices.now figures.old weights.old }
{
    let a = account_in(account);
    let Some(p) = read_prices(prices) else {
        return too_long(a);
    };
    if figures.len() != 32 {
        return too_long(a);
    }
    if weights.len() != 1024 {
        return too_long(a);
    }
    let priced = &p.symbol[..p.count];
    let cents = &p.price[..p.count];
    leave_both(snapshots(a, priced, cents, times), figures, weights)
}
