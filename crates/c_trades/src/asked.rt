// What a call is refused for before it is made.
ghost use Rattle.std.specs.Prelude.{◌≡◌};
ghost use Rattle.answer.specs.Numbers.{checked};
ghost use Rattle.table.specs.Rows.{cols};
ghost use Rattle.account.specs.Inner.Account.{account_with};
ghost use Rattle.c_trades.specs.Asked.{whole_run};
ghost use Rattle.c_trades.specs.Inner.Asked.{early_on};

use account::{Ledger, sound_account};
use answer::Answer;
use table::Columns;

// Whether so many bytes are a whole number of records.
pub(crate) fn whole_run(bytes: usize) -> bool
    ensures { result ≡ whole_run bytes }
{
    bytes % 96 == 0
}

// A kind above 1 is unknown, and lists that are not whole are too long. A call that is made tells an unsound account itself, so that soundness
// is looked at once.
// Kept: C gives the kind as a number.
pub(crate) fn check_early(
    h: Ledger,
    columns: &Columns,
    kind: u64,
    whole: bool,
) -> Result<(), Answer>
    ensures { result ≡ checked (early_on (account_with h columns.now) kind whole) }
{
    if kind <= 1 && whole {
        return Ok(());
    }
    if !sound_account(h, columns) {
        return Err(Answer::Unsound);
    }
    Err(if 1 < kind {
        Answer::BadSetting
    } else {
        Answer::TooLong
    })
}
