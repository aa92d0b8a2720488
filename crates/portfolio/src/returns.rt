// Recording a return: the equity and, where one is due, the return of a period.
ghost use Rattle.std.specs.Prelude.{◌≡◌, ◌<◌, length, set};
ghost use Rattle.table.specs.Keyed.{pick};
ghost use Rattle.table.specs.Rows.{cols};
ghost use Rattle.account.specs.Inner.Account.{account_with};
ghost use Rattle.answer.specs.Numbers.{checked};
ghost use Rattle.portfolio.specs.Answers.{return_answer};
ghost use Rattle.portfolio.specs.Returns.{return_of, is_due, next_series, recorded_by, recorded};
ghost use Rattle.portfolio.specs.Inner.Returns.{noted_by};

use crate::equity::equity_on;
use crate::trade::ledger_of;
use account::{Account, Changed, Ledger, Series, sound_account};
use answer::Answer;
use call_lists::check_prices;
use table::Columns;

// An answer, and the series after the call.
// Kept: "Each refusal returns its number with zero figures, the account as given": the answer and what goes with it are one struct.
#[derive(Clone, Copy)]
pub struct Noted {
    pub answer: Answer,
    pub series: Series,
}

// "A return is the saturating equity change over previous equity when that is above 0".
#[tactic(auto, unfolding(crate::specs::Returns::return_of))]
fn return_of(previous: i64, equity: i64) -> f64
    ensures { result ≡ return_of previous equity }
{
    if 0 < previous {
        let change = sums::saturating_sub(equity, previous);
        return doubles::i64_to_f64(change) / doubles::i64_to_f64(previous);
    }
    0.0
}

// "else 0.0 once a return exists; else none".
#[tactic(auto, unfolding(crate::specs::Returns::is_due))]
fn is_due(s: Series) -> bool
    ensures { result ≡ is_due s }
{
    0 < s.prev_equity || 0 < s.return_count
}

// One more equity, and one more return where one is due; the buffers have room for both.
#[tactic(auto, unfolding(crate::specs::Returns::next_series))]
fn next_series(s: Series, equity: i64, equities: usize, returns: usize) -> Series
    requires { (s.equity_count < equities) × (s.return_count < returns) }
    ensures { result ≡ next_series s equity }
{
    Series {
        equity_count: s.equity_count + 1,
        return_count: s.return_count + u64::from(is_due(s)),
        prev_equity: equity,
    }
}

// Writes the return at the account's count, where one is due.
fn write_return(returns: &mut [f64], s: Series, equity: i64)
    requires { s.return_count < length returns.old }
    ensures { returns.new ≡ pick (is_due s) (set returns.old s.return_count (return_of s.prev_equity equity)) returns.old }
{
    if is_due(s) {
        returns[s.return_count as usize] = return_of(s.prev_equity, equity);
    }
}

// Why a return on the account of a ledger and five columns is refused. "`record_return` gives 10 when either buffer is full, even if no return is due".
#[tactic(auto, unfolding(crate::specs::Answers::return_answer))]
fn check_return(
    h: Ledger,
    columns: &Columns,
    symbols: &[u64],
    prices: &[i64],
    equities: usize,
    returns: usize,
) -> Result<(), Answer>
    ensures { result ≡ checked (return_answer (account_with h columns.now) symbols.now prices.now equities returns) }
{
    if !sound_account(h, columns) {
        return Err(Answer::Unsound);
    }
    check_prices(symbols, prices)?;
    if equities as u64 <= h.series.equity_count || returns as u64 <= h.series.return_count {
        return Err(Answer::BufferFull);
    }
    Ok(())
}

// A return recorded on the account of a ledger and five lent columns: its series alone changes.
#[tactic(auto, unfolding(crate::specs::Returns::recorded))]
pub fn return_on<'a>(
    h: Ledger,
    columns: &'a Columns,
    symbols: &[u64],
    prices: &[i64],
    equity: &mut [i64],
    returns: &mut [f64],
) -> Noted
    ensures { noted_by result (account_with h columns.now) equity.new returns.new ≡ recorded (account_with h columns.now) symbols.now prices.now equity.old returns.old }
{
    let s = h.series;
    let equities = equity.len();
    let capacity = returns.len();
    if let Err(answer) = check_return(h, columns, symbols, prices, equities, capacity) {
        return Noted { answer, series: s };
    }
    let worth = equity_on(
        &columns.symbol,
        &columns.quantity,
        h.count,
        h.cash,
        symbols,
        prices,
    );
    equity[s.equity_count as usize] = worth;
    write_return(returns, s, worth);
    Noted {
        answer: Answer::Done,
        series: next_series(s, worth, equities, capacity),
    }
}

// Equity and return are written at the account's counts.
pub fn record_return(
    mut a: Account,
    symbols: &[u64],
    prices: &[i64],
    equity: &mut [i64],
    returns: &mut [f64],
) -> Changed
    ensures { recorded_by result equity.new returns.new ≡ recorded a symbols.now prices.now equity.old returns.old }
{
    let t = &a.positions;
    let r = return_on(ledger_of(a), &t.columns, symbols, prices, equity, returns);
    a.series = r.series;
    Changed {
        answer: r.answer,
        account: a,
    }
}
