// The whole of an account at given prices: five figures and the weights.
ghost use Rattle.std.specs.Prelude.{◌≡◌, ◌≤◌, eqb, length};
ghost use Rattle.table.specs.Keyed.{both};
ghost use Rattle.c_queries.specs.Told.{tell_both};
ghost use Rattle.c_queries.specs.Reports.{snapshot_told, snapshot_in};

use crate::asked::asked;
use account_bytes::account_in;
use answer::is_done;
use list_bytes::{write_figures, write_weights};
use queries::{Snapshot, snapshot};
use word_bytes::put_word;

// Room for five words and 64 weights, and no more.
fn is_room(figures: usize, weights: usize) -> bool
    ensures { result ≡ both (eqb figures 40) (eqb weights 1024) }
{
    figures == 40 && weights == 1024
}

// Cash, equity, open positions, realized profit and how many weights there are; and the weights.
fn put_snapshot(s: Snapshot, figures: &mut [u8], weights: &mut [u8]) -> u64
    requires { (length figures.old ≡ 40) × (s.weights.count ≤ 64) }
    ensures { tell_both result figures.new weights.new ≡ snapshot_told s figures.old weights.old }
{
    if !is_done(s.answer) {
        return answer::word(s.answer);
    }
    write_figures(
        s.cash,
        s.equity,
        s.num_positions,
        s.total_realized_pnl,
        figures,
    );
    let w = s.weights;
    put_word(figures, 4, w.count as u64);
    write_weights(w.count, w.symbol, w.weight, weights);
    256 * (w.count as u64)
}

// Five words, and a symbol and a weight in each of the first places, which the answer counts.
#[unsafe(no_mangle)]
pub extern "C" fn tc_snapshot(
    account: &[u8],
    prices: &[u8],
    figures: &mut [u8],
    weights: &mut [u8],
) -> u64
    ensures { tell_both result figures.new weights.new ≡ snapshot_in account.now prices.now figures.old weights.old }
{
    let a = account_in(account);
    match asked(a, prices, is_room(figures.len(), weights.len())) {
        Ok(p) => {
            let s = snapshot(a, &p.symbol[..p.count], &p.price[..p.count]);
            put_snapshot(s, figures, weights)
        }
        Err(answer) => answer::word(answer),
    }
}
