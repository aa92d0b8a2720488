// What part of the equity each open position is.
ghost use Rattle.std.specs.Prelude.{◌≡◌, [], ◌<◌};
ghost use Rattle.table.specs.Rows.{cols, rows};
ghost use Rattle.table.specs.Inner.Rows.{Ordered};
ghost use Rattle.queries.specs.Inner.Places.{added_weight, Weighs, WeighsAt};
ghost use Rattle.queries.specs.Answers.{weighed};

use crate::answered::Weighed;
use position::Position;
use table::{Columns, Found};

impl Weighed {
    // One weight more, unless the position is flat.
    fn add(&mut self, p: Position, price: i64, equity: f64)
        requires { self.old.count < 64 }
        ensures { self.new ≡ added_weight p price equity self.old }
    {
        if p.quantity.is_zero() {
            return;
        }
        let value = sums::value(p.quantity.raw(), price);
        self.symbol[self.count] = p.symbol.0;
        self.weight[self.count] = doubles::i64_to_f64(value) / equity;
        self.count += 1;
    }
}

// No weights.
pub(crate) fn no_weights() -> Weighed
    ensures { result ≡ weighed [] }
{
    Weighed {
        count: 0,
        symbol: [0; 64],
        weight: [0.0; 64],
    }
}

// The weights of the open ones at the first n places, with their prices: "in symbol order, without flat positions".
fn weigh(columns: &Columns, n: usize, price: &[i64; 64], equity: i64) -> Weighed
    requires { Ordered n columns.now }
    ensures { Weighs (rows n columns.now) price.now equity result }
{
    let whole = doubles::i64_to_f64(equity);
    let mut weights = no_weights();
    for i in 0..n {
        let p = columns.held(Found::At(i), 0);
        weights.add(p, price[i], whole);
    }
    weights
}

// "and none at equity 0".
pub(crate) fn weights_on(columns: &Columns, n: usize, price: &[i64; 64], equity: i64) -> Weighed
    requires { Ordered n columns.now }
    ensures { WeighsAt (rows n columns.now) price.now equity result }
{
    if equity == 0 {
        return no_weights();
    }
    weigh(columns, n, price, equity)
}
