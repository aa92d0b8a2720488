// The records that number slices hold, four words and eight signed numbers a place.
ghost use Rattle.std.specs.Prelude.{◌≡◌, ◌+◌, ◌*◌, ◌≤◌, length};
ghost use Rattle.records.specs.Read.{record_in, record_at, blank};

use fills::{ExecutionKind, ExecutionRecord};
use position::{Shares, Symbol};

// What stands for a place that the slices lack.
fn no_record() -> ExecutionRecord
    ensures { result ≡ blank }
{
    ExecutionRecord {
        sequence: 0,
        period_index: 0,
        kind: ExecutionKind::Rebalance,
        symbol: Symbol(0),
        quantity: Shares::ZERO,
        price: 0,
        reference_price: 0,
        notional: 0,
        reference_notional: 0,
        cost: 0,
        cash_delta: 0,
        cash_after: 0,
    }
}

// The record at a place that both slices have.
#[tactic(auto, unfolding(crate::specs::Read::record_in))]
fn record_in(words: &[u64], ints: &[i64], i: usize) -> ExecutionRecord
    requires { (i * 4 + 4 ≤ length words.now) × (i * 8 + 8 ≤ length ints.now) }
    ensures { result ≡ record_in words.now ints.now i }
{
    let w = i * 4;
    let n = i * 8;
    ExecutionRecord {
        sequence: words[w],
        period_index: words[w + 1],
        kind: fills::kind_of(words[w + 2]),
        symbol: Symbol(words[w + 3]),
        quantity: Shares::from_raw(ints[n]),
        price: ints[n + 1],
        reference_price: ints[n + 2],
        notional: ints[n + 3],
        reference_notional: ints[n + 4],
        cost: ints[n + 5],
        cash_delta: ints[n + 6],
        cash_after: ints[n + 7],
    }
}

// The record at a place, as `fills::store` wrote it.
// Kept: it answers the blank record where the slices lack the place, as its clause says, and no Option.
#[tactic(auto, unfolding(crate::specs::Read::record_at, fills::specs::Records::room))]
pub fn record_at(words: &[u64], ints: &[i64], i: usize) -> ExecutionRecord
    ensures { result ≡ record_at words.now ints.now i }
{
    if i < words.len() / 4 && i < ints.len() / 8 {
        record_in(words, ints, i)
    } else {
        no_record()
    }
}
