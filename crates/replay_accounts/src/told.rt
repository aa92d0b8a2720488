// Queries, which leave the account as it is.
use crate::row::{Row, head, prices_of, same_made, same_told, within};
use crate::state::count;
use account::Account;
use list_bytes::write_weights;
use position::Symbol;
use queries::Snapshot;
use word_bytes::unsigned;

fn position(r: Row, a: Account) -> bool {
    let h = a.position(Symbol(head(r, 2)));
    let p = h.position;
    let quantity = p.quantity;
    let given = h.answer;
    same_told(
        r,
        answer::number(given),
        unsigned(quantity.raw()),
        unsigned(p.avg_entry_price),
        unsigned(p.realized_pnl),
        unsigned(p.total_cost),
    ) && head(r, 8) == u64::from(h.present)
}

fn weights(r: Row, s: Snapshot) -> bool {
    let mut made = [0u8; 768];
    let w = s.weights;
    let symbol = w.symbol;
    let weight = w.weight;
    write_weights(w.count, symbol, weight, &mut made[..]);
    let given = s.answer;
    same_made(
        r,
        answer::number(given),
        w.count,
        &made[..],
        2 * count(head(r, 8)),
    )
}

fn equity(r: Row, a: Account, symbols: &[u64], prices: &[i64]) -> bool {
    let e = portfolio::total_equity(a, symbols, prices);
    let given = e.answer;
    same_told(r, answer::number(given), unsigned(e.value), 0, 0, 0)
}

fn unpriced(r: Row, a: Account, symbols: &[u64], prices: &[i64]) -> bool {
    let u = queries::unpriced_holding(a, symbols, prices);
    let given = u.answer;
    same_told(
        r,
        answer::number(given),
        u64::from(u.present),
        u.symbol,
        0,
        0,
    )
}

fn snapshot(r: Row, a: Account, symbols: &[u64], prices: &[i64]) -> bool {
    let s = queries::snapshot(a, symbols, prices);
    let given = s.answer;
    same_told(
        r,
        answer::number(given),
        unsigned(s.cash),
        unsigned(s.equity),
        s.num_positions,
        unsigned(s.total_realized_pnl),
    ) && weights(r, s)
}

fn at_prices(r: Row, a: Account, symbols: &[u64], prices: &[i64]) -> bool {
    match head(r, 0) {
        21 => equity(r, a, symbols, prices),
        22 => unpriced(r, a, symbols, prices),
        _ => snapshot(r, a, symbols, prices),
    }
}

// At as many prices as the row has.
fn at_first<'a>(r: Row, a: Account, symbols: &'a [u64], prices: &'a [i64]) -> bool {
    let m = within(count(head(r, 7)), symbols.len(), prices.len());
    at_prices(r, a, &symbols[..m], &prices[..m])
}

pub(crate) fn tell(r: Row, a: Account) -> bool {
    if head(r, 0) == 20 {
        return position(r, a);
    }
    let p = prices_of(r);
    at_first(r, a, &p.symbol, &p.price)
}
