// What part of the equity each open position is.
ghost use Rattle.std.specs.Prelude.{◌≡◌, ◌≤◌};
ghost use Rattle.c_queries.specs.Told.{tell_query};
ghost use Rattle.c_queries.specs.Reports.{weights_told, current_weights_in};

use crate::asked::asked;
use account_bytes::account_in;
use answer::is_done;
use list_bytes::write_weights;
use queries::{Weights, current_weights};

// 256 times the count, and the weights; or the word of a refusal.
fn put_weights(w: Weights, out: &mut [u8]) -> u64
    requires { w.weights.count ≤ 64 }
    ensures { tell_query result out.new ≡ weights_told w out.old }
{
    if !is_done(w.answer) {
        return answer::word(w.answer);
    }
    let l = w.weights;
    write_weights(l.count, l.symbol, l.weight, out);
    256 * (l.count as u64)
}

// A symbol and a weight in each of the first places, which the answer counts.
#[unsafe(no_mangle)]
pub extern "C" fn tc_current_weights(account: &[u8], prices: &[u8], out: &mut [u8]) -> u64
    ensures { tell_query result out.new ≡ current_weights_in account.now prices.now out.old }
{
    let a = account_in(account);
    match asked(a, prices, out.len() == 1024) {
        Ok(p) => {
            let w = current_weights(a, &p.symbol[..p.count], &p.price[..p.count]);
            put_weights(w, out)
        }
        Err(answer) => answer::word(answer),
    }
}
