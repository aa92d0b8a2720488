// Loading an account from a file.
ghost use Rattle.std.specs.Prelude.{◌≡◌};
ghost use Rattle.loading.specs.Loading.{loaded};

use crate::reader::parse;
use account::{Account, Changed};
use answer::Answer;

// The account, or all zeros where the file is refused.
// Kept: `Changed` has an answer beside the account, as "Each refusal returns its number with zero figures, the account as given" asks of every call.
pub fn load(bytes: &[u8]) -> Changed
    ensures { result ≡ loaded bytes.now }
{
    match parse(bytes) {
        Ok(account) => Changed {
            answer: Answer::Done,
            account,
        },
        Err(answer) => Changed {
            answer,
            account: Account::zero(),
        },
    }
}
