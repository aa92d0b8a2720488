// The account in lent bytes changed, and back into them.
ghost use Rattle.std.specs.Prelude.{◌≡◌};
ghost use Rattle.account.specs.declared.change.Changed.{Changed};
ghost use Rattle.c_accounts.specs.Entries.{account_in, account_told};
ghost use Rattle.c_accounts.specs.Inner.Setters.{setter_told};

use account::{Account, Changed};
use account_bytes::{account_in, write_account};
use answer::{Answer, is_done};

// Kept: a setter's answer beside its account, since "Each refusal returns its number with zero figures, the account as given".
// The account after a call that was done, unless what it was given is no mark or flag; else the bytes stay.
pub(crate) fn change<F: FnOnce(Account) -> Changed>(given: bool, bytes: &mut [u8], call: F) -> u64
    requires { F.IsAlwaysCallable call }
    ensures { (c : Changed)
        × F.post call (account_in bytes.old) c
        × (account_told result bytes.new ≡ setter_told given c bytes.old) }
{
    let c = call(account_in(bytes));
    if !is_done(c.answer) {
        return answer::word(c.answer);
    }
    if !given {
        return answer::word(Answer::BadSetting);
    }
    write_account(c.account, bytes);
    answer::word(Answer::Done)
}
