// A position as numbers: its symbol, and quantity, average, realized profit and total cost.
// Kept: one parameter a number, as C gives them.
ghost use Rattle.std.specs.Prelude.{◌≡◌, length};
ghost use Rattle.position.specs.Rows.{row, numbers_of};
ghost use Rattle.position.specs.Symbols.{good_symbol};
ghost use Rattle.position.specs.Fills.{sound, market_value, unrealized_pnl};
ghost use Rattle.c_leaves.specs.Lent.{after_fill, answer_to_fill};

use answer::Answer;
use position::{Position, Shares, Symbol};

// "Symbols: 1 to 8 bytes, each 33 to 126, padded with zeros": the first byte highest.
#[unsafe(no_mangle)]
pub extern "C" fn tc_good_symbol(symbol: u64) -> bool
    ensures { result ≡ good_symbol symbol }
{
    Symbol(symbol).is_good()
}

fn position_of(symbol: u64, quantity: i64, average: i64, realized: i64, total: i64) -> Position
    ensures { result ≡ row symbol quantity average realized total }
{
    Position {
        symbol: Symbol(symbol),
        quantity: Shares::from_raw(quantity),
        avg_entry_price: average,
        realized_pnl: realized,
        total_cost: total,
    }
}

#[unsafe(no_mangle)]
pub extern "C" fn tc_sound_position(
    symbol: u64,
    quantity: i64,
    average: i64,
    realized: i64,
    total: i64,
) -> bool
    ensures { result ≡ sound (row symbol quantity average realized total) }
{
    let position = position_of(symbol, quantity, average, realized, total);
    position.is_sound()
}

#[unsafe(no_mangle)]
pub extern "C" fn tc_market_value(
    symbol: u64,
    quantity: i64,
    average: i64,
    realized: i64,
    total: i64,
    price: i64,
) -> i64
    ensures { result ≡ market_value (row symbol quantity average realized total) price }
{
    let position = position_of(symbol, quantity, average, realized, total);
    position.market_value(price)
}

#[unsafe(no_mangle)]
pub extern "C" fn tc_unrealized_pnl(
    symbol: u64,
    quantity: i64,
    average: i64,
    realized: i64,
    total: i64,
    price: i64,
) -> i64
    ensures { result ≡ unrealized_pnl (row symbol quantity average realized total) price }
{
    let position = position_of(symbol, quantity, average, realized, total);
    position.unrealized_pnl(price)
}

// The four numbers of a position into the lent places.
fn put(numbers: &mut [i64], p: Position)
    requires { length numbers.old ≡ 4 }
    ensures { numbers.new ≡ numbers_of p }
{
    numbers.copy_from_slice(&[
        p.quantity.raw(),
        p.avg_entry_price,
        p.realized_pnl,
        p.total_cost,
    ]);
}

// "`apply_fill` is as in 001; called by itself it answers 11 for an unsound position and 4 only below 0". The lent numbers are quantity, average,
// realized profit and total cost, before and after; any other count of them is no sound position. A refusal leaves them as found.
#[unsafe(no_mangle)]
pub extern "C" fn tc_apply_fill(symbol: u64, numbers: &mut [i64], quantity: i64, price: i64) -> u64
    ensures { (result ≡ answer_to_fill symbol numbers.old quantity price) × (numbers.new ≡ after_fill symbol numbers.old quantity price) }
{
    if numbers.len() != 4 {
        return answer::word(Answer::Unsound);
    }
    let position = position_of(symbol, numbers[0], numbers[1], numbers[2], numbers[3]);
    let filled = position.apply_fill(Shares::from_raw(quantity), price);
    put(numbers, filled.position);
    answer::word(filled.answer)
}
