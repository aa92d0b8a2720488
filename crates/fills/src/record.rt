// The record of an actual fill, in execution order.
ghost use Rattle.std.specs.Prelude.{◌≡◌, ◌+◌, ◌*◌, ◌≤◌, length};
ghost use Rattle.std.proofs.lemmas.List.Edits.{sets};
ghost use Rattle.fills.specs.Inner.Deal.{record_by};
ghost use Rattle.fills.specs.Records.{kind_number, kind_of, words_of_record, ints_of_record, buffers, stored};

use crate::deal::Deal;
use crate::terms::{Order, Terms};
use position::{Shares, Symbol};

// Why a fill was made.
#[derive(Clone, Copy, PartialEq, Eq)]
pub enum ExecutionKind {
    // While rebalancing to target weights.
    Rebalance,
    // To close a position after a stop triggers.
    StopExit,
}

// Quantity is signed micro-shares; all money is in cents.
#[derive(Clone, Copy)]
pub struct ExecutionRecord {
    // Zero-based, across all recorded fills of the account.
    pub sequence: u64,
    pub period_index: u64,
    pub kind: ExecutionKind,
    pub symbol: Symbol,
    // What filled after any affordability trim.
    pub quantity: Shares,
    // Effective price, after slippage.
    pub price: i64,
    // Listed price, before slippage.
    pub reference_price: i64,
    pub notional: i64,
    pub reference_notional: i64,
    // Commission; excludes slippage.
    pub cost: i64,
    // The actual change, costs and saturation included.
    pub cash_delta: i64,
    pub cash_after: i64,
}

// The record of a deal, with the running count and the cash before it.
#[tactic(auto, unfolding(crate::specs::Inner::Deal::record_by))]
pub(crate) fn record_of(t: Terms, o: Order, d: Deal, sequence: u64, cash: i64) -> ExecutionRecord
    ensures { result ≡ record_by t o d sequence cash }
{
    ExecutionRecord {
        sequence,
        period_index: t.period_index,
        kind: t.kind,
        symbol: o.symbol,
        quantity: d.quantity,
        price: d.price,
        reference_price: o.price,
        notional: d.notional,
        reference_notional: sizing::notional_of(d.quantity, o.price),
        cost: d.cost,
        cash_delta: sums::saturating_sub(d.cash_after, cash),
        cash_after: d.cash_after,
    }
}

// The number that stands for a kind among number slices.
// Kept: a number beside the enum, since records lie in lent number slices and C names a kind by its number (`words_of_record`).
pub fn kind_number(k: ExecutionKind) -> u64
    ensures { result ≡ kind_number k }
{
    match k {
        ExecutionKind::Rebalance => 0,
        ExecutionKind::StopExit => 1,
    }
}

// The kind for which a number stands there: 0 is a rebalance, and any other number a stop exit.
#[tactic(auto, unfolding(crate::specs::Records::kind_of))]
pub fn kind_of(n: u64) -> ExecutionKind
    ensures { result ≡ kind_of n }
{
    match n {
        0 => ExecutionKind::Rebalance,
        _ => ExecutionKind::StopExit,
    }
}

// A record as four words.
fn words_of(r: ExecutionRecord) -> [u64; 4]
    ensures { result ≡ words_of_record r }
{
    [r.sequence, r.period_index, kind_number(r.kind), r.symbol.0]
}

// A record as eight signed numbers.
fn ints_of(r: ExecutionRecord) -> [i64; 8]
    ensures { result ≡ ints_of_record r }
{
    [
        r.quantity.raw(),
        r.price,
        r.reference_price,
        r.notional,
        r.reference_notional,
        r.cost,
        r.cash_delta,
        r.cash_after,
    ]
}

// Writes the values of a record as those at place `at`, where each record has as many.
fn store_values<T: Copy, const N: usize>(run: &mut [T], at: usize, values: [T; N])
    requires { at * N + N ≤ length run.old }
    ensures { run.new ≡ sets run.old (at * N) values }
{
    run[at * N..at * N + N].copy_from_slice(&values);
}

// Writes a record as the one at place `at`, and returns the next place. Where either slice has no room for it, both stay as they are.
pub fn store(words: &mut [u64], ints: &mut [i64], at: usize, r: ExecutionRecord) -> usize
    ensures { buffers words.new ints.new result ≡ stored r (buffers words.old ints.old at) }
{
    if words.len() / 4 <= at || ints.len() / 8 <= at {
        return at;
    }
    store_values(words, at, words_of(r));
    store_values(ints, at, ints_of(r));
    at + 1
}
