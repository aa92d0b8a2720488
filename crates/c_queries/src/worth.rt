// What an account is worth.
ghost use Rattle.std.specs.Prelude.{◌≡◌, length};
ghost use Rattle.c_queries.specs.Told.{tell_query};
ghost use Rattle.c_queries.specs.Reports.{equity_told, equity_in};

use crate::asked::asked;
use account::Told;
use account_bytes::account_in;
use answer::is_done;
use portfolio::total_equity;
use word_bytes::{put_word, unsigned};

// 0, and the figure; or the word of a refusal.
fn put_equity(c: Told<i64>, out: &mut [u8]) -> u64
    requires { length out.old ≡ 8 }
    ensures { tell_query result out.new ≡ equity_told c out.old }
{
    if !is_done(c.answer) {
        return answer::word(c.answer);
    }
    put_word(out, 0, unsigned(c.value));
    0
}

// One word, in cents.
#[unsafe(no_mangle)]
pub extern "C" fn tc_total_equity(account: &[u8], prices: &[u8], out: &mut [u8]) -> u64
    ensures { tell_query result out.new ≡ equity_in account.now prices.now out.old }
{
    let a = account_in(account);
    match asked(a, prices, out.len() == 8) {
        Ok(p) => {
            let c = total_equity(a, &p.symbol[..p.count], &p.price[..p.count]);
            put_equity(c, out)
        }
        Err(answer) => answer::word(answer),
    }
}
