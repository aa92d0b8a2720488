// One position of an account: by its symbol, or by its place in symbol order.
ghost use Rattle.std.specs.Prelude.{◌≡◌, Ok};
ghost use Rattle.table.specs.Rows.{columns_of};
ghost use Rattle.table.specs.Inner.Rows.{held_at};
ghost use Rattle.table.specs.declared.found.Found.TheVariants.{At};
ghost use Rattle.account.specs.Calls.{absent, position_of, position_at_of};
ghost use Rattle.account.specs.Inner.Calls.{found_in, held_of};

use crate::account::Account;
use answer::{Answer, Entry};
use position::{Position, Symbol};
use table::{Found, Table, find};

// "a position the account lacks is 0 with an absent mark"
// Kept: that sentence of document 01, and "Each refusal returns its number with zero figures".
#[derive(Clone, Copy)]
pub struct Held {
    pub answer: Answer,
    pub present: bool,
    pub position: Position,
}

// What is told of the position that was looked for.
fn told(looked_for: Result<Option<Position>, Answer>) -> Held
    ensures { result ≡ held_of looked_for }
{
    match looked_for {
        Ok(Some(position)) => Held {
            answer: Answer::Done,
            present: true,
            position,
        },
        Ok(None) => absent(Answer::Done),
        Err(answer) => absent(answer),
    }
}

// "0 with an absent mark", of an account that lacks the position or a call that is refused.
fn absent(answer: Answer) -> Held
    ensures { result ≡ absent answer }
{
    Held {
        answer,
        present: false,
        position: Position::new(Symbol(0)),
    }
}

// The position at place i of a table.
fn row(t: &Table, i: usize) -> Position
    ensures { result ≡ held_at (At i) 0 (columns_of t.now) }
{
    t.columns.held(Found::At(i), 0)
}

// What a search in a table's symbols found.
fn found_in(t: &Table, f: Found) -> Option<Position>
    ensures { held_of (Ok result) ≡ found_in f (columns_of t.now) }
{
    match f {
        Found::At(i) => Some(row(t, i)),
        Found::Absent(_) => None,
    }
}

impl Account {
    // The position of a symbol: 11, then 2 for a symbol that is bad.
    pub fn position(self, symbol: Symbol) -> Held
        ensures { result ≡ position_of symbol.0 self }
    {
        told(self.find_position(symbol))
    }

    fn find_position(self, symbol: Symbol) -> Result<Option<Position>, Answer>
        ensures { held_of result ≡ position_of symbol.0 self }
    {
        self.check()?;
        if !symbol.is_good() {
            return Err(Answer::BadSymbol(Entry::Price(0)));
        }
        let t = &self.positions;
        Ok(found_in(t, find(&t.columns.symbol, t.count, symbol.0, 0)))
    }

    // The position at a place, the lowest symbol at place 0: for a walk over all of them.
    pub fn position_at(self, index: usize) -> Held
        ensures { result ≡ position_at_of index self }
    {
        told(self.nth_position(index))
    }

    fn nth_position(self, index: usize) -> Result<Option<Position>, Answer>
        ensures { held_of result ≡ position_at_of index self }
    {
        self.check()?;
        let t = &self.positions;
        if index < t.count {
            Ok(Some(row(t, index)))
        } else {
            Ok(None)
        }
    }
}
