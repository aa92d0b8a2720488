// The first holding without a price.
ghost use Rattle.std.specs.Prelude.{◌≡◌, length};
ghost use Rattle.c_queries.specs.Told.{tell_query};
ghost use Rattle.c_queries.specs.Reports.{unpriced_told, unpriced_in};

use crate::asked::asked;
use account_bytes::{account_in, flag_word};
use answer::is_done;
use queries::{Unpriced, unpriced_holding};
use word_bytes::{put_symbol, put_word};

// 0, and the two words; or the word of a refusal.
fn put_unpriced(u: Unpriced, out: &mut [u8]) -> u64
    requires { length out.old ≡ 16 }
    ensures { tell_query result out.new ≡ unpriced_told u out.old }
{
    if !is_done(u.answer) {
        return answer::word(u.answer);
    }
    put_word(out, 0, flag_word(u.present));
    put_symbol(out, 1, u.symbol);
    0
}

// Two words: the present mark and the symbol.
#[unsafe(no_mangle)]
pub extern "C" fn tc_unpriced_holding(account: &[u8], prices: &[u8], out: &mut [u8]) -> u64
    ensures { tell_query result out.new ≡ unpriced_in account.now prices.now out.old }
{
    let a = account_in(account);
    match asked(a, prices, out.len() == 16) {
        Ok(p) => {
            let u = unpriced_holding(a, &p.symbol[..p.count], &p.price[..p.count]);
            put_unpriced(u, out)
        }
        Err(answer) => answer::word(answer),
    }
}
