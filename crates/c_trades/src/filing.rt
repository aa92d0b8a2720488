// What a call that traded leaves in lent bytes.
ghost use Rattle.std.specs.Prelude.{◌≡◌, ◌≤◌};
ghost use Rattle.table.specs.Rows.{cols};
ghost use Rattle.portfolio.specs.Inner.Trades.{traded_on};
ghost use Rattle.c_trades.specs.Told.{tell_trade};
ghost use Rattle.c_trades.specs.Inner.Told.{finished, word_by};

use account_bytes::write_ledger;
use answer::{Answer, is_done};
use list_bytes::write_records;
use portfolio::Ran;
use table::Columns;

// What C is told: the word of a call that was done, or that of the refusal.
// Kept: C is told one number, which is made here alone.
pub(crate) fn told(call: Result<u64, Answer>) -> u64
    ensures { result ≡ word_by call }
{
    match call {
        Ok(word) => word,
        Err(answer) => answer::word(answer),
    }
}

// The account and its records after a call that was done; after another every byte is as found.
#[tactic(auto, unfolding(crate::specs::Inner::Told::finished))]
pub(crate) fn finish(
    t: Ran,
    columns: &Columns,
    words: &[u64],
    ints: &[i64],
    account: &mut [u8],
    records: &mut [u8],
) -> Result<u64, Answer>
    requires { t.records ≤ 64 }
    ensures { tell_trade (word_by result) account.new records.new
        ≡ finished (traded_on t columns.now) words.now ints.now account.old records.old }
{
    if !is_done(t.answer) {
        return Err(t.answer);
    }
    write_ledger(t.ledger, columns, account);
    write_records(words, ints, t.records, records);
    Ok(256 * (t.records as u64))
}
