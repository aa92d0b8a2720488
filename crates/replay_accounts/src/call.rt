// Calls that change the account.
use crate::row::{Row, head, prices_of, same_made, same_told, targets_of, within};
use crate::state::{cap, count, same_account};
use account::{Account, Changed};
use cost_model::CostModel;
use fills::ExecutionKind;
use list_bytes::write_records;
use portfolio::Traded;
use word_bytes::{float, pattern, signed, unsigned};

fn opened(r: Row, equity: &mut [i64]) -> Changed {
    let costs = CostModel {
        commission_bps: float(head(r, 3)),
        slippage_bps: float(head(r, 4)),
        min_commission: signed(head(r, 5)),
        max_commission: 0,
    };
    if head(r, 13) == 0 {
        let mut none = [0i64; 0];
        return account::open(signed(head(r, 2)), costs, &mut none[..]);
    }
    account::open(signed(head(r, 2)), costs, equity)
}

fn set(a: Account, number: u64, word: u64, other: u64) -> Changed {
    let n = signed(word);
    match number {
        1 => a.set_quantity_step(n),
        2 => a.set_min_order_value(n),
        3 => a.set_max_order_value(n),
        4 => a.set_no_trade_band_bps(float(word)),
        5 => a.set_max_trades_per_rebalance(cap(word, other)),
        6 => a.set_max_rebalance_notional(n),
        _ => a.set_recording(word != 0),
    }
}

// "Opening writes the cash as the first equity"; refused, it writes nothing.
fn open(r: Row, told: &[u8]) -> bool {
    let mut equity = [0i64; 1];
    let c = opened(r, &mut equity[..]);
    let first = unsigned(equity[0]);
    let given = c.answer;
    same_told(r, answer::number(given), first, 0, 0, 0) && same_account(told, c.account)
}

// Opening and the setters.
pub(crate) fn change(r: Row, a: Account, told: &[u8]) -> bool {
    let number = head(r, 0);
    if number == 0 {
        return open(r, told);
    }
    let c = set(a, number, head(r, 2), head(r, 3));
    let given = c.answer;
    same_told(r, answer::number(given), 0, 0, 0, 0) && same_account(told, c.account)
}

fn kind(number: u64) -> ExecutionKind {
    match number {
        0 => ExecutionKind::Rebalance,
        _ => ExecutionKind::StopExit,
    }
}

// A rebalance to as many targets as the row has, at as many prices.
fn rebalance<'a>(
    r: Row,
    a: Account,
    targets: &'a [u64],
    weights: &'a [f64],
    symbols: &'a [u64],
    prices: &'a [i64],
    words: &mut [u64],
    ints: &mut [i64],
) -> Traded {
    let period = head(r, 2);
    let why = kind(head(r, 3));
    let n = within(count(head(r, 6)), targets.len(), weights.len());
    let m = within(count(head(r, 7)), symbols.len(), prices.len());
    portfolio::rebalance_simple(
        a,
        &targets[..n],
        &weights[..n],
        &symbols[..m],
        &prices[..m],
        period,
        why,
        words,
        ints,
    )
}

fn rebalanced(r: Row, a: Account, words: &mut [u64], ints: &mut [i64]) -> Traded {
    let t = targets_of(r);
    let p = prices_of(r);
    rebalance(
        r,
        a,
        &t.symbol[..],
        &t.weight[..],
        &p.symbol[..],
        &p.price[..],
        words,
        ints,
    )
}

// The k-th of many symbols: three bytes that are good.
fn nth(k: usize) -> u64 {
    let n = k as u64 % 256;
    0x5300_0000_0000_0000 + (33 + n / 64) * 0x1_0000_0000_0000 + (33 + n % 64) * 0x100_0000_0000
}

fn put_symbols(column: &mut [u64]) {
    for (k, symbol) in column.iter_mut().enumerate() {
        *symbol = nth(k);
    }
}

// A rebalance to these lists, with the row's period and kind.
fn at_lists<'a>(
    r: Row,
    a: Account,
    targets: &'a [u64],
    weights: &'a [f64],
    symbols: &'a [u64],
    prices: &'a [i64],
    words: &mut [u64],
    ints: &mut [i64],
) -> Traded {
    portfolio::rebalance_simple(
        a,
        targets,
        weights,
        symbols,
        prices,
        head(r, 2),
        kind(head(r, 3)),
        words,
        ints,
    )
}

// Targets of weight 0 and prices of 1, as many as lists may have.
fn long_lists(r: Row, a: Account, words: &mut [u64], ints: &mut [i64]) -> Traded {
    let mut targets = [0u64; 64];
    let weights = [0.0f64; 64];
    let mut symbols = [0u64; 128];
    let prices = [1i64; 128];
    put_symbols(&mut targets[..]);
    put_symbols(&mut symbols[..]);
    at_lists(
        r,
        a,
        &targets[..],
        &weights[..],
        &symbols[..],
        &prices[..],
        words,
        ints,
    )
}

// One target more, and one price more.
fn longer_targets(r: Row, a: Account, words: &mut [u64], ints: &mut [i64]) -> Traded {
    let mut targets = [0u64; 65];
    let weights = [0.0f64; 65];
    let mut symbols = [0u64; 128];
    let prices = [1i64; 128];
    put_symbols(&mut targets[..]);
    put_symbols(&mut symbols[..]);
    at_lists(
        r,
        a,
        &targets[..],
        &weights[..],
        &symbols[..],
        &prices[..],
        words,
        ints,
    )
}

fn longer_prices(r: Row, a: Account, words: &mut [u64], ints: &mut [i64]) -> Traded {
    let mut targets = [0u64; 64];
    let weights = [0.0f64; 64];
    let mut symbols = [0u64; 129];
    let prices = [1i64; 129];
    put_symbols(&mut targets[..]);
    put_symbols(&mut symbols[..]);
    at_lists(
        r,
        a,
        &targets[..],
        &weights[..],
        &symbols[..],
        &prices[..],
        words,
        ints,
    )
}

// One target and one price more, of no good symbol.
fn longer_bad(r: Row, a: Account, words: &mut [u64], ints: &mut [i64]) -> Traded {
    let targets = [0u64; 65];
    let weights = [0.0f64; 65];
    let symbols = [0u64; 129];
    let prices = [1i64; 129];
    at_lists(
        r,
        a,
        &targets[..],
        &weights[..],
        &symbols[..],
        &prices[..],
        words,
        ints,
    )
}

// A weight less than targets.
fn fewer_weights(r: Row, a: Account, words: &mut [u64], ints: &mut [i64]) -> Traded {
    let mut targets = [0u64; 2];
    let weights = [0.0f64; 1];
    let mut symbols = [0u64; 2];
    let prices = [1i64; 2];
    put_symbols(&mut targets[..]);
    put_symbols(&mut symbols[..]);
    at_lists(
        r,
        a,
        &targets[..],
        &weights[..],
        &symbols[..],
        &prices[..],
        words,
        ints,
    )
}

// A price less than symbols.
fn fewer_prices(r: Row, a: Account, words: &mut [u64], ints: &mut [i64]) -> Traded {
    let mut targets = [0u64; 1];
    let weights = [0.0f64; 1];
    let mut symbols = [0u64; 2];
    let prices = [1i64; 1];
    put_symbols(&mut targets[..]);
    put_symbols(&mut symbols[..]);
    at_lists(
        r,
        a,
        &targets[..],
        &weights[..],
        &symbols[..],
        &prices[..],
        words,
        ints,
    )
}

fn traded(r: Row, a: Account, words: &mut [u64], ints: &mut [i64]) -> Traded {
    match head(r, 0) {
        10 => rebalanced(r, a, words, ints),
        13 => long_lists(r, a, words, ints),
        14 => longer_targets(r, a, words, ints),
        15 => longer_prices(r, a, words, ints),
        16 => longer_bad(r, a, words, ints),
        17 => fewer_weights(r, a, words, ints),
        18 => fewer_prices(r, a, words, ints),
        _ => closed(r, a, words, ints),
    }
}

fn closed(r: Row, a: Account, words: &mut [u64], ints: &mut [i64]) -> Traded {
    portfolio::close_position_at(
        a,
        head(r, 2),
        signed(head(r, 3)),
        head(r, 4),
        kind(head(r, 5)),
        words,
        ints,
    )
}

// A call that is lent one place too few, or none. It makes no record.
fn crowded(r: Row, a: Account) -> Traded {
    if head(r, 13) == 0 {
        let mut words = [0u64; 0];
        let mut ints = [0i64; 0];
        return traded(r, a, &mut words[..], &mut ints[..]);
    }
    let mut words = [0u64; 252];
    let mut ints = [0i64; 504];
    traded(r, a, &mut words[..], &mut ints[..])
}

fn trade_crowded(r: Row, a: Account, told: &[u8]) -> bool {
    let made = [0u8; 768];
    let t = crowded(r, a);
    let given = t.answer;
    same_made(r, answer::number(given), t.records, &made[..], 0) && same_account(told, t.account)
}

// A rebalance and a close, with their records.
pub(crate) fn trade(r: Row, a: Account, told: &[u8]) -> bool {
    if head(r, 13) < 64 {
        return trade_crowded(r, a, told);
    }
    let mut words = [0u64; 256];
    let mut ints = [0i64; 512];
    let mut made = [0u8; 768];
    let t = traded(r, a, &mut words[..], &mut ints[..]);
    write_records(&words[..], &ints[..], t.records, &mut made[..]);
    let given = t.answer;
    same_made(
        r,
        answer::number(given),
        t.records,
        &made[..],
        12 * count(head(r, 8)),
    ) && same_account(told, t.account)
}

// The return at as many prices as the row has.
fn recorded<'a>(
    r: Row,
    a: Account,
    symbols: &'a [u64],
    prices: &'a [i64],
    equities: &mut [i64],
    returns: &mut [f64],
) -> Changed {
    let m = within(count(head(r, 7)), symbols.len(), prices.len());
    portfolio::record_return(a, &symbols[..m], &prices[..m], equities, returns)
}

// One equity place, or no place for a return.
fn recorded_crowded<'a>(r: Row, a: Account, symbols: &'a [u64], prices: &'a [i64]) -> Changed {
    if head(r, 14) == 0 {
        let mut equities = [0i64; 128];
        let mut returns = [0.0f64; 0];
        return recorded(r, a, symbols, prices, &mut equities[..], &mut returns[..]);
    }
    let mut equities = [0i64; 1];
    let mut returns = [0.0f64; 128];
    recorded(r, a, symbols, prices, &mut equities[..], &mut returns[..])
}

fn period_crowded(r: Row, a: Account, told: &[u8]) -> bool {
    let p = prices_of(r);
    let c = recorded_crowded(r, a, &p.symbol[..], &p.price[..]);
    let given = c.answer;
    same_told(r, answer::number(given), 0, 0, 0, 0) && same_account(told, c.account)
}

// The equity, whether a return is due, and the return.
pub(crate) fn period(r: Row, a: Account, told: &[u8]) -> bool {
    if head(r, 13) == 1 || head(r, 14) == 0 {
        return period_crowded(r, a, told);
    }
    let mut equities = [0i64; 128];
    let mut returns = [0.0f64; 128];
    let p = prices_of(r);
    let e = (a.series.equity_count % 128) as usize;
    let g = (a.series.return_count % 128) as usize;
    let c = recorded(
        r,
        a,
        &p.symbol[..],
        &p.price[..],
        &mut equities[..],
        &mut returns[..],
    );
    let equity = unsigned(equities[e]);
    let gain = pattern(returns[g]);
    let given = c.answer;
    same_told(r, answer::number(given), equity, gain, 0, 0) && same_account(told, c.account)
}
