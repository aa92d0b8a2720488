// What an account in lent bytes tells of itself: 11, then 6 where `out` has another length, then what the question itself is refused for.
ghost use Rattle.std.specs.Prelude.{◌≡◌, ◌*◌, ◌≤◌, length};
ghost use Rattle.word_bytes.specs.Words.{words_of};
ghost use Rattle.c_accounts.specs.Entries.{account_told};
ghost use Rattle.c_accounts.specs.Queries.{held_words, cash_told, settings_told, counters_told, series_told, position_told, position_at_told};
ghost use Rattle.answer.specs.declared.Answer.TheVariants.{Done};
ghost use Rattle.account.specs.Inner.Answers.{unless_unsound};
ghost use Rattle.c_accounts.specs.Inner.Queries.{is_unsound, tell_in};

use account::{Account, Held};
use account_bytes::{
    SETTINGS_BYTES, account_in, counter_words, flag_word, series_words, write_settings,
};
use answer::{Answer, is_done};
use position::Symbol;
use word_bytes::{Stored, put_word, unsigned};

// Words into bytes that have room for them and no more.
fn put_words(words: &[u64], out: &mut [u8])
    requires { (length words.now ≤ 7) × (length out.old ≡ 8 * length words.now) }
    ensures { words_of out.new ≡ words.now }
{
    for (i, w) in words.iter().enumerate() {
        put_word(out, i, *w);
    }
}

// What a question that any sound account answers is refused for.
fn soundness(a: Account) -> Answer
    ensures { result ≡ unless_unsound a Done }
{
    match a.check_sound() {
        Ok(()) => Answer::Done,
        Err(answer) => answer,
    }
}

fn is_unsound(answer: Answer) -> bool
    ensures { result ≡ is_unsound answer }
{
    answer == Answer::Unsound
}

// The answer of a question to an account, and its words where it is done. The answer tells an unsound account, so that soundness is looked at once.
fn tell(asked: Answer, words: &[u64], out: &mut [u8]) -> u64
    requires { length words.now ≤ 7 }
    ensures { account_told result out.new ≡ tell_in asked words.now out.old }
{
    if is_unsound(asked) {
        return answer::word(asked);
    }
    if out.len() != 8 * words.len() {
        return answer::word(Answer::TooLong);
    }
    if !is_done(asked) {
        return answer::word(asked);
    }
    put_words(words, out);
    answer::word(asked)
}

fn held_words(h: Held) -> [u64; 6]
    ensures { result ≡ held_words h }
{
    let p = h.position;
    [
        flag_word(h.present),
        p.symbol.0.to_word(),
        unsigned(p.quantity.raw()),
        unsigned(p.avg_entry_price),
        unsigned(p.realized_pnl),
        unsigned(p.total_cost),
    ]
}

#[unsafe(no_mangle)]
pub extern "C" fn tc_cash(account: &[u8], out: &mut [u8]) -> u64
    ensures { account_told result out.new ≡ cash_told account.now out.old }
{
    let a = account_in(account);
    tell(soundness(a), &[unsigned(a.cash)], out)
}

// The words of the settings, as opening takes them.
#[unsafe(no_mangle)]
pub extern "C" fn tc_settings(account: &[u8], out: &mut [u8]) -> u64
    ensures { account_told result out.new ≡ settings_told account.now out.old }
{
    let a = account_in(account);
    if let Err(answer) = a.check_sound() {
        return answer::word(answer);
    }
    if out.len() != SETTINGS_BYTES {
        return answer::word(Answer::TooLong);
    }
    write_settings(a.settings, out);
    answer::word(Answer::Done)
}

// Seven words: last order count and notional, trimmed count and shortfall, record count, and two that stand for no counter.
#[unsafe(no_mangle)]
pub extern "C" fn tc_counters(account: &[u8], out: &mut [u8]) -> u64
    ensures { account_told result out.new ≡ counters_told account.now out.old }
{
    let a = account_in(account);
    tell(soundness(a), &counter_words(a.counters), out)
}

// Three words: the counts of equities and returns, and the previous equity.
#[unsafe(no_mangle)]
pub extern "C" fn tc_series(account: &[u8], out: &mut [u8]) -> u64
    ensures { account_told result out.new ≡ series_told account.now out.old }
{
    let a = account_in(account);
    tell(soundness(a), &series_words(a.series), out)
}

// Six words: the present mark, the symbol, quantity, average, realized profit and total cost.
#[unsafe(no_mangle)]
pub extern "C" fn tc_position(account: &[u8], symbol: u64, out: &mut [u8]) -> u64
    ensures { account_told result out.new ≡ position_told symbol account.now out.old }
{
    let a = account_in(account);
    let h = a.position(Symbol(symbol));
    tell(h.answer, &held_words(h), out)
}

// The same by its place, the lowest symbol at place 0.
#[unsafe(no_mangle)]
pub extern "C" fn tc_position_at(account: &[u8], index: u64, out: &mut [u8]) -> u64
    ensures { account_told result out.new ≡ position_at_told index account.now out.old }
{
    let a = account_in(account);
    let h = a.position_at(index as usize);
    tell(h.answer, &held_words(h), out)
}
