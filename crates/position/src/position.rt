// A position in a single instrument.
ghost use Rattle.std.specs.Prelude.{◌≡◌};
ghost use Rattle.position.specs.Rows.{fresh};
ghost use Rattle.position.specs.Shares.{is_zero};
ghost use Rattle.position.specs.Fills.{sound_numbers, sound, same_side, entered, averaged, grown, closed_by, gain, realized_by, closed_cost, closed, partly_closed, reduced, applied, apply_fill, market_value, unrealized_pnl};

use crate::shares::Shares;
use crate::symbol::Symbol;
use answer::{Answer, Entry};

// Quantity (positive = long, negative = short), average entry price and realized profit; money in cents.
#[derive(Clone, Copy, PartialEq, Eq)]
pub struct Position {
    pub symbol: Symbol,
    pub quantity: Shares,
    pub avg_entry_price: i64,
    pub realized_pnl: i64,
    // Cumulative cost of entry, from which the average is worked out.
    pub total_cost: i64,
}

// What a fill by itself answers, and the position after it.
// Kept: no Result, as document 01 says "Each refusal returns its number with zero figures, the account as given".
#[derive(Clone, Copy, PartialEq, Eq)]
pub struct Filled {
    pub answer: Answer,
    pub position: Position,
}

impl Position {
    // A new flat position for the given symbol.
    pub fn new(symbol: Symbol) -> Position
        ensures { result ≡ fresh symbol.0 }
    {
        Position {
            symbol,
            quantity: Shares::ZERO,
            avg_entry_price: 0,
            realized_pnl: 0,
            total_cost: 0,
        }
    }

    // "A flat position has average and total cost 0; otherwise the average is at least 0, a long's total cost is at least, and a short's at most, its
    // market value at its average"; and its symbol is good.
    #[tactic(auto, unfolding(crate::specs::Fills::sound))]
    pub fn is_sound(self) -> bool
        ensures { result ≡ sound self }
    {
        self.symbol.is_good() && sound_numbers(self.quantity, self.avg_entry_price, self.total_cost)
    }

    // A fill by itself: refuses an unsound position and a price below 0, and then returns the position as given. A price of 0 is taken: "slippage can
    // make a sale's price 0".
    #[tactic(auto, unfolding(crate::specs::Fills::apply_fill))]
    pub fn apply_fill(self, quantity: Shares, price: i64) -> Filled
        ensures { result ≡ apply_fill self quantity.0 price }
    {
        if !self.is_sound() {
            return Filled {
                answer: Answer::Unsound,
                position: self,
            };
        }
        if price < 0 {
            return Filled {
                answer: Answer::BadPrice(Entry::Price(0)),
                position: self,
            };
        }
        Filled {
            answer: Answer::Done,
            position: self.fill(quantity, price),
        }
    }

    // A fill of signed micro-shares, positive = buy, at a price in cents. If it adds to the position, the average is worked out anew; if it reduces or
    // flips it, the closed part's profit is realized.
    #[tactic(auto, unfolding(crate::specs::Fills::applied))]
    pub fn fill(self, quantity: Shares, price: i64) -> Position
        ensures { result ≡ applied self quantity.0 price }
    {
        if quantity.is_zero() {
            return self;
        }
        if self.quantity.is_zero() {
            // Opening a new position.
            return entered(self.symbol, quantity, self.realized_pnl, price);
        }
        if same_side(self.quantity, quantity) {
            return self.grown(quantity, price);
        }
        self.reduced(quantity, price)
    }

    // Adding to the position.
    #[tactic(auto, unfolding(crate::specs::Fills::grown))]
    fn grown(self, quantity: Shares, price: i64) -> Position
        ensures { result ≡ grown self quantity.0 price }
    {
        let total = sums::saturating_add(self.total_cost, sums::value(quantity.0, price));
        averaged(
            self.symbol,
            self.quantity.add(quantity),
            self.realized_pnl,
            total,
        )
    }

    // Reducing or flipping.
    #[tactic(auto, unfolding(crate::specs::Fills::reduced))]
    fn reduced(self, quantity: Shares, price: i64) -> Position
        ensures { result ≡ reduced self quantity.0 price }
    {
        let realized = self.realized_by(quantity, price);
        let net = self.quantity.add(quantity);
        if net.is_zero() {
            return self.closed(realized);
        }
        if same_side(net, self.quantity) {
            return self.partly_closed(quantity, realized);
        }
        // Flipped sides.
        entered(self.symbol, net, realized, price)
    }

    // The realized profit with that of the part that a fill closes.
    #[tactic(auto, unfolding(crate::specs::Fills::realized_by))]
    fn realized_by(self, quantity: Shares, price: i64) -> i64
        ensures { result ≡ realized_by self quantity.0 price }
    {
        let part = closed_by(self.quantity, quantity);
        sums::saturating_add(self.realized_pnl, sums::value(part.0, self.gain(price)))
    }

    // long: sell higher = profit; short: buy lower = profit. On a sound position and a price of at least 0 neither difference saturates.
    #[tactic(auto, unfolding(crate::specs::Fills::gain))]
    fn gain(self, price: i64) -> i64
        ensures { result ≡ gain self price }
    {
        if self.quantity.is_positive() {
            sums::saturating_sub(price, self.avg_entry_price)
        } else {
            sums::saturating_sub(self.avg_entry_price, price)
        }
    }

    // The cost that leaves the total with the closed part, the same for a long and a short.
    #[tactic(auto, unfolding(crate::specs::Fills::closed_cost))]
    fn closed_cost(self, part: Shares) -> i64
        ensures { result ≡ closed_cost self part.0 }
    {
        sums::value(part.0, self.avg_entry_price)
    }

    // Fully closed.
    #[tactic(auto, unfolding(crate::specs::Fills::closed))]
    fn closed(self, realized: i64) -> Position
        ensures { result ≡ closed self realized }
    {
        Position {
            realized_pnl: realized,
            ..Position::new(self.symbol)
        }
    }

    // Partially closed, same side: the closed part's cost is subtracted, to preserve any fractional remainder in the total.
    #[tactic(auto, unfolding(crate::specs::Fills::partly_closed))]
    fn partly_closed(self, quantity: Shares, realized: i64) -> Position
        ensures { result ≡ partly_closed self quantity.0 realized }
    {
        let cost = self.closed_cost(closed_by(self.quantity, quantity));
        let total = sums::saturating_sub(self.total_cost, cost);
        averaged(self.symbol, self.quantity.add(quantity), realized, total)
    }

    // Current market value at the given price (cents).
    #[tactic(auto, unfolding(crate::specs::Fills::market_value))]
    pub fn market_value(self, price: i64) -> i64
        ensures { result ≡ market_value self price }
    {
        sums::value(self.quantity.0, price)
    }

    // Unrealized profit at the given market price (cents).
    #[tactic(auto, unfolding(crate::specs::Fills::unrealized_pnl))]
    pub fn unrealized_pnl(self, price: i64) -> i64
        ensures { result ≡ unrealized_pnl self price }
    {
        if self.quantity.is_zero() {
            return 0;
        }
        sums::value(
            self.quantity.0,
            sums::saturating_sub(price, self.avg_entry_price),
        )
    }

    // Whether the position is flat (zero quantity).
    pub fn is_flat(self) -> bool
        ensures { result ≡ is_zero self.quantity.0 }
    {
        self.quantity.is_zero()
    }
}

#[tactic(auto, unfolding(crate::specs::Fills::sound_numbers))]
fn sound_numbers(quantity: Shares, average: i64, total: i64) -> bool
    ensures { result ≡ sound_numbers quantity.0 average total }
{
    if quantity.is_zero() {
        return average == 0 && total == 0;
    }
    let worth = sums::value(quantity.0, average);
    0 <= average
        && if quantity.is_positive() {
            worth <= total
        } else {
            total <= worth
        }
}

// Of two quantities that are not zero: whether both are long or both are short.
#[tactic(auto, unfolding(crate::specs::Fills::same_side))]
fn same_side(a: Shares, b: Shares) -> bool
    ensures { result ≡ same_side a.0 b.0 }
{
    a.is_positive() == b.is_positive()
}

// The part of a holding that an opposite fill closes.
#[tactic(auto, unfolding(crate::specs::Fills::closed_by))]
fn closed_by(held: Shares, fill: Shares) -> Shares
    ensures { result.0 ≡ closed_by held.0 fill.0 }
{
    Shares(held.abs().0.min(fill.abs().0))
}

// A position entered whole at one price.
#[tactic(auto, unfolding(crate::specs::Fills::entered))]
fn entered(symbol: Symbol, quantity: Shares, realized: i64, price: i64) -> Position
    ensures { result ≡ entered symbol.0 quantity.0 realized price }
{
    Position {
        symbol,
        quantity,
        avg_entry_price: price,
        realized_pnl: realized,
        total_cost: sums::value(quantity.0, price),
    }
}

// A position whose average is recovered from its total cost.
#[tactic(auto, unfolding(crate::specs::Fills::averaged))]
fn averaged(symbol: Symbol, quantity: Shares, realized: i64, total: i64) -> Position
    ensures { result ≡ averaged symbol.0 quantity.0 realized total }
{
    Position {
        symbol,
        quantity,
        avg_entry_price: sums::price_at(total, quantity.0),
        realized_pnl: realized,
        total_cost: total,
    }
}
