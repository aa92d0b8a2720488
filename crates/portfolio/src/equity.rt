// What an account is worth.
ghost use Rattle.std.specs.Prelude.{◌≡◌};
ghost use Rattle.answer.specs.declared.Answer.TheVariants.{Done};
ghost use Rattle.sums.specs.Sums.{sat_add};
ghost use Rattle.table.specs.Inner.Places.{shorter};
ghost use Rattle.call_lists.specs.Lists.{price_of};
ghost use Rattle.call_lists.specs.Checks.{prices_answer};
ghost use Rattle.account.specs.Account.{held_in};
ghost use Rattle.wanted.specs.Equity.{equity_of};
ghost use Rattle.wanted.specs.Inner.Equity.{worth_places};
ghost use Rattle.portfolio.specs.Answers.{query_answer};
ghost use Rattle.portfolio.specs.Queries.{told_equity};

use crate::refusal::check_query;
use account::{Account, Told};
use answer::Answer;
use call_lists::{is_ascending, sort_prices};
use wanted::total_worth;

// Cash and what the first n places are worth. Prices whose symbols ascend are used in place; others are sorted first.
// Kept: no heap, so the sorted prices stand in two fixed columns, of which slices go on.
pub(crate) fn equity_on(
    symbol: &[u64; 64],
    quantity: &[i64; 64],
    n: usize,
    cash: i64,
    symbols: &[u64],
    prices: &[i64],
) -> i64
    requires { prices_answer symbols.now prices.now ≡ Done }
    ensures { result ≡ sat_add cash (worth_places (price_of symbols.now prices.now) (shorter n 64) symbol.now quantity.now) }
{
    if is_ascending(symbols) {
        return sums::saturating_add(cash, total_worth(symbol, quantity, n, symbols, prices));
    }
    let mut keys = [0u64; 128];
    let mut values = [0i64; 128];
    let m = sort_prices(symbols, prices, &mut keys, &mut values);
    sums::saturating_add(
        cash,
        total_worth(symbol, quantity, n, &keys[..m], &values[..m]),
    )
}

// "Equity is cash plus the finished sum of position values in symbol order": of a sound account, at prices that were not refused.
pub(crate) fn equity_of(a: Account, symbols: &[u64], prices: &[i64]) -> i64
    requires { query_answer a symbols.now prices.now ≡ Done }
    ensures { result ≡ equity_of (price_of symbols.now prices.now) a.cash (held_in a.positions) }
{
    let t = a.positions;
    equity_on(
        &t.columns.symbol,
        &t.columns.quantity,
        t.count,
        a.cash,
        symbols,
        prices,
    )
}

#[tactic(auto, unfolding(crate::specs::Queries::told_equity))]
pub fn total_equity(a: Account, symbols: &[u64], prices: &[i64]) -> Told<i64>
    ensures { result ≡ told_equity a symbols.now prices.now }
{
    match check_query(a, symbols, prices) {
        Ok(()) => Told {
            answer: Answer::Done,
            value: equity_of(a, symbols, prices),
        },
        Err(answer) => Told { answer, value: 0 },
    }
}
