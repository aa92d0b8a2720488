// The first holding without a price.
ghost use Rattle.std.specs.Prelude.{◌≡◌};
ghost use Rattle.table.specs.Rows.{cols, rows};
ghost use Rattle.table.specs.Inner.Rows.{Ordered};
ghost use Rattle.queries.specs.Queries.{unpriced};
ghost use Rattle.queries.specs.Inner.Places.{First, told_symbol};
ghost use Rattle.queries.specs.Answers.{answered_unpriced, told_unpriced};

use crate::answered::Unpriced;
use crate::price::prices_of;
use account::Account;
use answer::Answer;
use portfolio::check_query;
use position::{Shares, Symbol};
use table::{Columns, Found};

// Whether a quantity is open and its price below 1, as that of an unlisted symbol is.
#[tactic(auto, unfolding(crate::specs::Queries::unpriced))]
fn is_unpriced(quantity: Shares, price: i64) -> bool
    ensures { result ≡ unpriced quantity.0 price }
{
    !quantity.is_zero() && price < 1
}

// Of the first n places, with their prices.
fn first_unpriced(columns: &Columns, n: usize, price: &[i64; 64]) -> Option<Symbol>
    requires { Ordered n columns.now }
    ensures { First (rows n columns.now) price.now result }
{
    for i in 0..n {
        let p = columns.held(Found::At(i), 0);
        if is_unpriced(p.quantity, price[i]) {
            return Some(p.symbol);
        }
    }
    None
}

// An answer, and the symbol that a search told, if any.
fn told(answer: Answer, symbol: Option<Symbol>) -> Unpriced
    ensures { result ≡ answered_unpriced answer (told_symbol symbol) }
{
    match symbol {
        None => Unpriced {
            answer,
            present: false,
            symbol: 0,
        },
        Some(s) => Unpriced {
            answer,
            present: true,
            symbol: s.0,
        },
    }
}

// "`unpriced_holding` tells the first in symbol order".
pub fn unpriced_holding(a: Account, symbols: &[u64], prices: &[i64]) -> Unpriced
    ensures { result ≡ told_unpriced a symbols.now prices.now }
{
    if let Err(answer) = check_query(a, symbols, prices) {
        return told(answer, None);
    }
    let t = &a.positions;
    let listed = prices_of(&t.columns.symbol, t.count, symbols, prices);
    let first = first_unpriced(&t.columns, t.count, &listed);
    told(Answer::Done, first)
}
