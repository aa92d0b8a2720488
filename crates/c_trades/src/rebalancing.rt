// A rebalance to target weights.
ghost use Rattle.std.specs.Prelude.{◌≡◌, true, ◌/◌, length};
ghost use Rattle.table.specs.Keyed.{both};
ghost use Rattle.table.specs.Rows.{cols};
ghost use Rattle.account.specs.Inner.Account.{account_with};
ghost use Rattle.list_bytes.specs.Entries.{whole_list};
ghost use Rattle.list_bytes.specs.Lists.{symbols_in, weights_in, prices_in};
ghost use Rattle.portfolio.specs.Rebalance.{rebalanced};
ghost use Rattle.fills.specs.Records.{kind_of};
ghost use Rattle.c_trades.specs.Asked.{whole_run};
ghost use Rattle.c_trades.specs.Told.{tell_trade, trade_told};
ghost use Rattle.c_trades.specs.Calls.{rebalance_in};
ghost use Rattle.c_trades.specs.Inner.Told.{word_by};

use crate::asked::{check_early, whole_run};
use crate::filing::{finish, told};
use account::Ledger;
use account_bytes::{is_account, read_columns, read_ledger};
use answer::Answer;
use list_bytes::{is_whole, prices_into, targets_into};
use portfolio::rebalance_on;
use table::Columns;

// Whether the lists and the record buffer are whole.
fn are_whole(targets: &[u8], prices: &[u8], records: &[u8]) -> bool
    ensures { result ≡ both (both (whole_list 64 targets.now) (whole_list 128 prices.now)) (whole_run (length records.now)) }
{
    is_whole(targets.len(), 64) && is_whole(prices.len(), 128) && whole_run(records.len())
}

// A rebalance on lent columns by whole lists, and what it leaves filed in the lent bytes. Its records stand in number slices of as many places as
// there is room for: no more than 64 records are made.
fn rebalance_in_room(
    h: Ledger,
    columns: &mut Columns,
    targets: &[u8],
    prices: &[u8],
    period: u64,
    kind: u64,
    account: &mut [u8],
    records: &mut [u8],
) -> Result<u64, Answer>
    requires { (whole_list 64 targets.now ≡ true) × (whole_list 128 prices.now ≡ true) }
    ensures { let c = columns.old in
        tell_trade (word_by result) account.new records.new
        ≡ trade_told (rebalanced (account_with h c)
        (symbols_in targets.now) (weights_in targets.now) (symbols_in prices.now) (prices_in prices.now)
        period (kind_of kind) (length records.old / 96)) account.old records.old }
{
    let mut ts = [0; 64];
    let mut ws = [0.0; 64];
    let n = targets_into(targets, &mut ts, &mut ws);
    let mut ss = [0; 128];
    let mut ps = [0; 128];
    let m = prices_into(prices, &mut ss, &mut ps);
    let mut words = [0; 256];
    let mut ints = [0; 512];
    let room = (records.len() / 96).min(64);
    let words = &mut words[..4 * room];
    let ints = &mut ints[..8 * room];
    let kind = fills::kind_of(kind);
    let t = rebalance_on(
        h,
        columns,
        &ts[..n],
        &ws[..n],
        &ss[..m],
        &ps[..m],
        period,
        kind,
        words,
        ints,
    );
    finish(t, columns, words, ints, account, records)
}

// A rebalance on the account that the bytes hold.
fn rebalance_in(
    account: &mut [u8],
    targets: &[u8],
    prices: &[u8],
    period: u64,
    kind: u64,
    records: &mut [u8],
) -> Result<u64, Answer>
    ensures { tell_trade (word_by result) account.new records.new
        ≡ trade_told (rebalance_in account.old targets.now prices.now period kind records.old) account.old records.old }
{
    if !is_account(account) {
        return Err(Answer::Unsound);
    }
    let mut columns = Columns::empty();
    read_columns(account, &mut columns);
    let h = read_ledger(account);
    let whole = are_whole(targets, prices, records);
    check_early(h, &columns, kind, whole)?;
    rebalance_in_room(
        h,
        &mut columns,
        targets,
        prices,
        period,
        kind,
        account,
        records,
    )
}

// The word of a refusal, or 256 times the count of records.
#[unsafe(no_mangle)]
pub extern "C" fn tc_rebalance_simple(
    account: &mut [u8],
    targets: &[u8],
    prices: &[u8],
    period: u64,
    kind: u64,
    records: &mut [u8],
) -> u64
    ensures { tell_trade result account.new records.new
        ≡ trade_told (rebalance_in account.old targets.now prices.now period kind records.old) account.old records.old }
{
    told(rebalance_in(account, targets, prices, period, kind, records))
}
