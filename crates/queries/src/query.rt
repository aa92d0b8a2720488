// The whole of an account at given prices, and its weights alone.
ghost use Rattle.std.specs.Prelude.{◌≡◌};
ghost use Rattle.answer.specs.declared.Answer.TheVariants.{Done};
ghost use Rattle.call_lists.specs.Lists.{price_of};
ghost use Rattle.portfolio.specs.Answers.{query_answer};
ghost use Rattle.queries.specs.Answers.{snapshot_of, no_snapshot, told_snapshot, told_weights};

use crate::answered::{Snapshot, Weights};
use crate::price::prices_of;
use crate::sum::summed;
use crate::weight::{no_weights, weights_on};
use account::Account;
use answer::Answer;
use portfolio::check_query;

// Of a sound account, at prices that were not refused.
fn snapshot_of(a: Account, symbols: &[u64], prices: &[i64]) -> Snapshot
    requires { query_answer a symbols.now prices.now ≡ Done }
    ensures { result ≡ snapshot_of (price_of symbols.now prices.now) a }
{
    let t = &a.positions;
    let n = t.count;
    let listed = prices_of(&t.columns.symbol, n, symbols, prices);
    let sums = summed(&t.columns, n, &listed);
    let equity = sums::saturating_add(a.cash, sums.worth);
    Snapshot {
        answer: Answer::Done,
        cash: a.cash,
        equity,
        num_positions: sums.open_count,
        total_realized_pnl: sums.profit,
        weights: weights_on(&t.columns, n, &listed, equity),
    }
}

// "Each refusal returns its number with zero figures".
fn refused(answer: Answer) -> Snapshot
    ensures { result ≡ no_snapshot answer }
{
    Snapshot {
        answer,
        cash: 0,
        equity: 0,
        num_positions: 0,
        total_realized_pnl: 0,
        weights: no_weights(),
    }
}

// The whole of an account at given prices, or what refuses it.
pub fn snapshot(a: Account, symbols: &[u64], prices: &[i64]) -> Snapshot
    ensures { result ≡ told_snapshot a symbols.now prices.now }
{
    match check_query(a, symbols, prices) {
        Ok(()) => snapshot_of(a, symbols, prices),
        Err(answer) => refused(answer),
    }
}

// The weights of a snapshot, with its answer.
pub fn current_weights(a: Account, symbols: &[u64], prices: &[i64]) -> Weights
    ensures { result ≡ told_weights a symbols.now prices.now }
{
    let s = snapshot(a, symbols, prices);
    Weights {
        answer: s.answer,
        weights: s.weights,
    }
}
