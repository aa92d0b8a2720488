// Positions as a count and columns of 64 places, and one position read or written in them.
ghost use Rattle.std.specs.Prelude.{◌≡◌, ◌-◌, ◌≤◌, ◌<◌};
ghost use Rattle.table.specs.Rows.{empty_columns, empty_table};
ghost use Rattle.table.specs.Inner.Rows.{counted_cols, held_at, set_all, open_all, posted};

use crate::column::open;
use crate::found::Found;
use position::{Position, Shares, Symbol};

// The fields of 64 positions, a column each.
#[derive(Clone, Copy)]
pub struct Columns {
    pub symbol: [u64; 64],
    pub quantity: [i64; 64],
    pub average: [i64; 64],
    pub realized: [i64; 64],
    pub total: [i64; 64],
}

// At most 64 positions in ascending order of their symbols; the places past the count are zero.
#[derive(Clone, Copy)]
pub struct Table {
    pub count: usize,
    pub columns: Columns,
}

impl Table {
    // A table without positions.
    pub fn empty() -> Table
        ensures { result ≡ empty_table }
    {
        Table {
            count: 0,
            columns: Columns::empty(),
        }
    }
}

impl Columns {
    // Zero at every place.
    pub fn empty() -> Columns
        ensures { result ≡ empty_columns }
    {
        Columns {
            symbol: [0; 64],
            quantity: [0; 64],
            average: [0; 64],
            realized: [0; 64],
            total: [0; 64],
        }
    }

    // The position at the place that was found, or a flat one of the symbol.
    pub fn held(&self, f: Found, s: u64) -> Position
        ensures { result ≡ held_at f s self.now }
    {
        if let Found::At(i) = f {
            if i < 64 {
                return Position {
                    symbol: Symbol(self.symbol[i]),
                    quantity: Shares::from_raw(self.quantity[i]),
                    avg_entry_price: self.average[i],
                    realized_pnl: self.realized[i],
                    total_cost: self.total[i],
                };
            }
        }
        Position::new(Symbol(s))
    }

    // Writes the position at place i.
    fn replace(&mut self, i: usize, p: Position)
        requires { i < 64 }
        ensures { self.new ≡ set_all i p self.old }
    {
        self.symbol[i] = p.symbol.0;
        self.quantity[i] = p.quantity.raw();
        self.average[i] = p.avg_entry_price;
        self.realized[i] = p.realized_pnl;
        self.total[i] = p.total_cost;
    }

    // Inserts the position at place i of the first n, and moves those from i on one up.
    fn insert(&mut self, i: usize, n: usize, p: Position)
        requires { (i ≤ n) × (n < 64) }
        ensures { self.new ≡ open_all i (n - i) p self.old }
    {
        open(&mut self.symbol, i, n, p.symbol.0);
        open(&mut self.quantity, i, n, p.quantity.raw());
        open(&mut self.average, i, n, p.avg_entry_price);
        open(&mut self.realized, i, n, p.realized_pnl);
        open(&mut self.total, i, n, p.total_cost);
    }

    // Writes the position at the place that was found for its symbol, or inserts it there; returns the count.
    // A full table has no room for another symbol and stays as it is.
    pub fn post(&mut self, n: usize, f: Found, p: Position) -> usize
        ensures { counted_cols result self.new ≡ posted f p (counted_cols n self.old) }
    {
        match f {
            Found::At(i) => {
                if i < 64 {
                    self.replace(i, p);
                }
                n
            }
            Found::Absent(i) => {
                if n < 64 && i <= n {
                    self.insert(i, n, p);
                    n + 1
                } else {
                    n
                }
            }
        }
    }
}
