// A position closed at a price.
ghost use Rattle.std.specs.Prelude.{◌≡◌, ◌/◌, length};
ghost use Rattle.table.specs.Rows.{cols};
ghost use Rattle.account.specs.Inner.Account.{account_with};
ghost use Rattle.portfolio.specs.Close.{position_closed};
ghost use Rattle.fills.specs.Records.{kind_of};
ghost use Rattle.c_trades.specs.Told.{tell_trade, trade_told};
ghost use Rattle.c_trades.specs.Calls.{close_in};
ghost use Rattle.c_trades.specs.Inner.Told.{word_by};

use crate::asked::{check_early, whole_run};
use crate::filing::{finish, told};
use account::Ledger;
use account_bytes::{is_account, read_columns, read_ledger};
use answer::Answer;
use portfolio::close_on;
use table::Columns;

// A close on lent columns, and what it leaves filed in the lent bytes. Its record stands in number slices of as many places as there is room
// for: "For closing, 8 asks for one place", and no more than one is filled.
fn close_in_room(
    h: Ledger,
    columns: &mut Columns,
    s: u64,
    price: i64,
    period: u64,
    kind: u64,
    account: &mut [u8],
    records: &mut [u8],
) -> Result<u64, Answer>
    ensures { tell_trade (word_by result) account.new records.new
        ≡ trade_told (position_closed (account_with h columns.old) s price period (kind_of kind) (length records.old / 96)) account.old records.old }
{
    let mut words = [0; 4];
    let mut ints = [0; 8];
    let room = (records.len() / 96).min(1);
    let words = &mut words[..4 * room];
    let ints = &mut ints[..8 * room];
    let kind = fills::kind_of(kind);
    let t = close_on(h, columns, s, price, period, kind, words, ints);
    finish(t, columns, words, ints, account, records)
}

// A close on the account that the bytes hold.
fn close_in(
    account: &mut [u8],
    symbol: u64,
    price: i64,
    period: u64,
    kind: u64,
    records: &mut [u8],
) -> Result<u64, Answer>
    ensures { tell_trade (word_by result) account.new records.new
        ≡ trade_told (close_in account.old symbol price period kind records.old) account.old records.old }
{
    if !is_account(account) {
        return Err(Answer::Unsound);
    }
    let mut columns = Columns::empty();
    read_columns(account, &mut columns);
    let h = read_ledger(account);
    let whole = whole_run(records.len());
    check_early(h, &columns, kind, whole)?;
    close_in_room(
        h,
        &mut columns,
        symbol,
        price,
        period,
        kind,
        account,
        records,
    )
}

// The word of a refusal, or 256 times the count of records.
#[unsafe(no_mangle)]
pub extern "C" fn tc_close_position_at(
    account: &mut [u8],
    symbol: u64,
    price: i64,
    period: u64,
    kind: u64,
    records: &mut [u8],
) -> u64
    ensures { tell_trade result account.new records.new
        ≡ trade_told (close_in account.old symbol price period kind records.old) account.old records.old }
{
    told(close_in(account, symbol, price, period, kind, records))
}
