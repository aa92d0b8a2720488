// Calls that trade, with their records in a lent run of structs. No heap, so that the number slices in which a call files its records are
// fixed arrays.
ghost use Rattle.std.specs.Prelude.{◌≡◌, length};
ghost use Rattle.portfolio.specs.Close.{position_closed};
ghost use Rattle.portfolio.specs.Rebalance.{rebalanced};
ghost use Rattle.records.specs.Into.{handed, handed_by};

use crate::run::collect;
use account::Account;
use fills::{ExecutionKind, ExecutionRecord};
use portfolio::{Traded, close_position_at, rebalance_simple};

// `close_position_at` with its record in a lent run of structs: "For closing, 8 asks for one place", and no more than one is filled.
pub fn close_position_into<'a>(
    a: Account,
    symbol: u64,
    price: i64,
    period: u64,
    kind: ExecutionKind,
    out: &'a mut [ExecutionRecord],
) -> Traded
    ensures { handed_by result out.new ≡ handed (position_closed a symbol price period kind (length out.old)) out.old }
{
    let mut words = [0; 4];
    let mut ints = [0; 8];
    let room = out.len().min(1);
    let words = &mut words[..room * 4];
    let ints = &mut ints[..room * 8];
    let closed = close_position_at(a, symbol, price, period, kind, words, ints);
    collect(words, ints, closed.records, out);
    closed
}

// `rebalance_simple` with its records in a lent run of structs, of which it asks for 64 places at most.
pub fn rebalance_into<'t, 'w, 's, 'p, 'a>(
    a: Account,
    targets: &'t [u64],
    weights: &'w [f64],
    symbols: &'s [u64],
    prices: &'p [i64],
    period: u64,
    kind: ExecutionKind,
    out: &'a mut [ExecutionRecord],
) -> Traded
    ensures { handed_by result out.new
        ≡ handed (rebalanced a targets.now weights.now symbols.now prices.now period kind (length out.old)) out.old }
{
    let mut words = [0; 256];
    let mut ints = [0; 512];
    let places = out.len().min(64);
    let words = &mut words[..places * 4];
    let ints = &mut ints[..places * 8];
    let traded = rebalance_simple(
        a, targets, weights, symbols, prices, period, kind, words, ints,
    );
    collect(words, ints, traded.records, out);
    traded
}
