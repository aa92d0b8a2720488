// The return of a period, recorded in the account and in two series that the caller lends as numbers.
ghost use Rattle.std.specs.Prelude.{◌≡◌, true};
ghost use Rattle.answer.specs.Places.{word_of};
ghost use Rattle.table.specs.Keyed.{pick};
ghost use Rattle.table.specs.Rows.{cols};
ghost use Rattle.account_bytes.specs.Account.{written_series};
ghost use Rattle.list_bytes.specs.Entries.{whole_list};
ghost use Rattle.list_bytes.specs.Lists.{symbols_in, prices_in};
ghost use Rattle.portfolio.specs.Answers.{is_done};
ghost use Rattle.portfolio.specs.Returns.{recorded};
ghost use Rattle.c_trades.specs.Asked.{account_in};
ghost use Rattle.c_trades.specs.Inner.Asked.{HoldsAccount};
ghost use Rattle.c_trades.specs.Inner.Told.{word_by};
ghost use Rattle.c_trades.specs.Returns.{return_told, tell_return, return_in};

use crate::asked::check_early;
use crate::filing::told;
use account::Ledger;
use account_bytes::{is_account, read_columns, read_ledger, write_series};
use answer::{Answer, is_done};
use list_bytes::{is_whole, prices_into};
use portfolio::{Noted, return_on};
use table::Columns;

// The series is written after a call that was done; after another the account's bytes stay.
fn keep(c: Noted, account: &mut [u8]) -> Result<u64, Answer>
    ensures { (word_by result ≡ word_of c.answer) × (account.new ≡ pick (is_done c.answer) (written_series c.series account.old) account.old) }
{
    if !is_done(c.answer) {
        return Err(c.answer);
    }
    write_series(c.series, account);
    Ok(0)
}

// A return on the account that the bytes hold, by a whole price list, and what it leaves filed in these bytes.
fn file_return(
    h: Ledger,
    columns: &Columns,
    prices: &[u8],
    account: &mut [u8],
    equities: &mut [i64],
    returns: &mut [f64],
) -> Result<u64, Answer>
    requires { (whole_list 128 prices.now ≡ true) × HoldsAccount account.old h columns.now }
    ensures { tell_return (word_by result) account.new equities.new returns.new
        ≡ return_told (recorded (account_in account.old) (symbols_in prices.now) (prices_in prices.now) equities.old returns.old) account.old }
{
    let mut ss = [0; 128];
    let mut ps = [0; 128];
    let m = prices_into(prices, &mut ss, &mut ps);
    let c = return_on(h, columns, &ss[..m], &ps[..m], equities, returns);
    keep(c, account)
}

// A return on the account that the bytes hold.
fn return_in(
    account: &mut [u8],
    prices: &[u8],
    equities: &mut [i64],
    returns: &mut [f64],
) -> Result<u64, Answer>
    ensures { tell_return (word_by result) account.new equities.new returns.new
        ≡ return_told (return_in account.old prices.now equities.old returns.old) account.old }
{
    if !is_account(account) {
        return Err(Answer::Unsound);
    }
    let mut columns = Columns::empty();
    read_columns(account, &mut columns);
    let h = read_ledger(account);
    let listed = is_whole(prices.len(), 128);
    check_early(h, &columns, 0, listed)?;
    file_return(h, &columns, prices, account, equities, returns)
}

// The answer's word.
#[unsafe(no_mangle)]
pub extern "C" fn tc_record_return(
    account: &mut [u8],
    prices: &[u8],
    equities: &mut [i64],
    returns: &mut [f64],
) -> u64
    ensures { tell_return result account.new equities.new returns.new
        ≡ return_told (return_in account.old prices.now equities.old returns.old) account.old }
{
    told(return_in(account, prices, equities, returns))
}
