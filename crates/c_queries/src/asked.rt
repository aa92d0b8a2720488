// What a query with prices is refused for before it is made: 11, then 6.
ghost use Rattle.std.specs.Prelude.{◌≡◌};
ghost use Rattle.answer.specs.declared.Answer.TheVariants.{TooLong};
ghost use Rattle.account.specs.Inner.Answers.{unless_unsound};
ghost use Rattle.c_queries.specs.Inner.Asked.{asked_prices};

use account::Account;
use answer::Answer;
use list_bytes::{Prices, read_prices};

// 6, unless the account is not sound.
fn too_long(a: Account) -> Answer
    ensures { result ≡ unless_unsound a TooLong }
{
    match a.check_sound() {
        Ok(()) => Answer::TooLong,
        Err(answer) => answer,
    }
}

// The prices of a query that is to be made. The query tells an unsound account itself, so that soundness is looked at once.
#[tactic(auto, unfolding(crate::specs::Inner::Asked::asked_prices))]
pub(crate) fn asked(a: Account, prices: &[u8], fits: bool) -> Result<Prices, Answer>
    ensures { result ≡ asked_prices a prices.now fits }
{
    if !fits {
        return Err(too_long(a));
    }
    match read_prices(prices) {
        None => Err(too_long(a)),
        Some(p) => Ok(p),
    }
}
