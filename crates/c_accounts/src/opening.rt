// Opening an account into lent bytes.
ghost use Rattle.std.specs.Prelude.{◌≡◌};
ghost use Rattle.c_accounts.specs.Opening.{open_told, open_in};

use account::{Account, sound_scalars};
use account_bytes::{ACCOUNT_BYTES, read_settings, write_account};
use answer::Answer;

// All settings are given at once, as their bytes; bytes that hold none are refused as bad settings. A refusal leaves account and equities as
// found.
#[unsafe(no_mangle)]
pub extern "C" fn tc_open(
    cash: i64,
    settings: &[u8],
    account: &mut [u8],
    equities: &mut [i64],
) -> u64
    ensures { open_told result account.new equities.new ≡ open_in cash settings.now account.old equities.old }
{
    if account.len() != ACCOUNT_BYTES {
        return answer::word(Answer::Unsound);
    }
    let Some(s) = read_settings(settings) else {
        return answer::word(Answer::BadSetting);
    };
    if !sound_scalars(cash, s) {
        return answer::word(Answer::BadSetting);
    }
    if equities.is_empty() {
        return answer::word(Answer::BufferFull);
    }
    equities[0] = cash;
    write_account(Account::opened(cash, s), account);
    answer::word(Answer::Done)
}
