// Saving an account and loading it through the C interface.
#![tactic(auto)]

ghost use Rattle.std.specs.Prelude.{◌≡◌};
ghost use Rattle.c_saved.specs.Saved.{told, save_in, load_in};

use account_bytes::{ACCOUNT_BYTES, account_in, write_account};
use answer::{Answer, is_done};
use loading::load;
use saving::save;

// Kept here and in `tc_load`: an answer beside its figures, since "Each refusal returns its number with zero figures, the account as given".
// Bytes that hold no account give zeros, which are no sound account. The file's length stands above the answer's byte.
#[unsafe(no_mangle)]
pub extern "C" fn tc_save(account: &[u8], file: &mut [u8]) -> u64
    ensures { told result file.new ≡ save_in account.now file.old }
{
    let a = account_in(account);
    let s = save(a, file);
    if !is_done(s.answer) {
        return answer::number(s.answer);
    }
    256 * (s.length as u64)
}

// A refusal leaves the account's bytes as found. The byte that it tells stands above the answer's byte.
#[unsafe(no_mangle)]
pub extern "C" fn tc_load(file: &[u8], account: &mut [u8]) -> u64
    ensures { told result account.new ≡ load_in file.now account.old }
{
    if account.len() != ACCOUNT_BYTES {
        return answer::number(Answer::Unsound);
    }
    let c = load(file);
    if !is_done(c.answer) {
        return answer::word(c.answer);
    }
    write_account(c.account, account);
    answer::word(c.answer)
}
