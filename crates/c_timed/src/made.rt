// What is told of calls that were made over and over.
ghost use Rattle.std.specs.Prelude.{◌≡◌};
ghost use Rattle.answer.specs.declared.Answer.TheVariants.{TooLong};
ghost use Rattle.answer.specs.Places.{word_of};
ghost use Rattle.account.specs.Inner.Answers.{unless_unsound};
ghost use Rattle.c_timed.specs.Made.{leave, left};

use account::{Account, Changed};
use account_bytes::write_account;
use answer::{Answer, is_done};

// 6 for a list that is not whole or a place of another length, unless the account is not sound.
pub(crate) fn too_long(a: Account) -> u64
    ensures { result ≡ word_of (unless_unsound a TooLong) }
{
    match a.check_sound() {
        Ok(()) => answer::word(Answer::TooLong),
        Err(answer) => answer::word(answer),
    }
}

// The account that the last one left.
pub(crate) fn leave(c: Changed, after: &mut [u8]) -> u64
    ensures { leave result after.new ≡ left c after.old }
{
    if !is_done(c.answer) {
        return answer::word(c.answer);
    }
    write_account(c.account, after);
    answer::word(Answer::Done)
}
