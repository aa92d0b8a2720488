// What is summed over the positions of an account.
ghost use Rattle.std.specs.Prelude.{◌≡◌};
ghost use Rattle.table.specs.Keyed.{pick};
ghost use Rattle.table.specs.Rows.{is_zero, cols, rows};
ghost use Rattle.table.specs.Inner.Rows.{Ordered};
ghost use Rattle.queries.specs.Inner.Places.{AddsUp};

use position::Shares;
use table::{Columns, Found};

#[derive(Clone, Copy)]
pub(crate) struct Sums {
    // The finished sum of the values.
    pub worth: i64,
    // How many positions are open.
    pub open_count: u64,
    // The realized profits of all, open or flat.
    pub profit: i64,
}

// 1 for an open position.
fn open_one(quantity: Shares) -> u64
    ensures { result ≡ pick (is_zero quantity.0) 0 1 }
{
    if quantity.is_zero() { 0 } else { 1 }
}

// Of the first n places, with their prices.
pub(crate) fn summed(columns: &Columns, n: usize, price: &[i64; 64]) -> Sums
    requires { Ordered n columns.now }
    ensures { AddsUp (rows n columns.now) price.now result }
{
    let mut worth = 0i64;
    let mut open_count = 0u64;
    let mut profit = 0i64;
    for i in 0..n {
        let p = columns.held(Found::At(i), 0);
        let v = sums::value(p.quantity.raw(), price[i]);
        worth = sums::saturating_add(worth, v);
        profit = sums::saturating_add(profit, p.realized_pnl);
        open_count += open_one(p.quantity);
    }
    Sums {
        worth,
        open_count,
        profit,
    }
}
