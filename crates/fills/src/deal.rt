// What an order comes to before anything is written.
ghost use Rattle.std.specs.Prelude.{◌≡◌};
ghost use Rattle.fills.specs.Inner.Deal.{dealt, no_deal, trimmed_to, buy_deal, sale_deal, deal_of};

use crate::terms::{Order, Terms};
use position::Shares;

// Quantity 0: nothing fills. Money is in cents.
// Kept: a quantity of 0 for nothing, since an order's own quantity may be 0, and `no_fill_keeps_all` (proofs/Soundness) speaks of it.
#[derive(Clone, Copy)]
pub struct Deal {
    pub quantity: Shares,
    // Effective price, after slippage.
    pub price: i64,
    pub notional: i64,
    pub cost: i64,
    pub cash_after: i64,
    // The notional that a buy lost, where it was more than cash covers.
    pub lost: Option<i64>,
}

// Nothing fills, and no commission is charged.
#[tactic(auto, unfolding(crate::specs::Inner::Deal::no_deal))]
fn no_deal(price: i64, cash: i64, lost: Option<i64>) -> Deal
    ensures { result ≡ no_deal price cash lost }
{
    Deal {
        quantity: Shares::ZERO,
        price,
        notional: 0,
        cost: 0,
        cash_after: cash,
        lost,
    }
}

// "Cash falls by the signed value plus commission, saturating."
#[tactic(auto, unfolding(crate::specs::Inner::Deal::dealt, sizing::specs::Cash::cash_taken))]
fn dealt(t: Terms, quantity: Shares, price: i64, cash: i64, lost: Option<i64>) -> Deal
    ensures { result ≡ dealt t quantity.0 price cash lost }
{
    let notional = sizing::notional_of(quantity, price);
    let cost = t.costs.compute_cost(notional);
    let taken = sums::saturating_add(sums::value(quantity.raw(), price), cost);
    Deal {
        quantity,
        price,
        notional,
        cost,
        cash_after: sums::saturating_sub(cash, taken),
        lost,
    }
}

// A request of which cash covers only `got`: "The trimmed count and the lost notional rise even when nothing remains; then no commission is charged."
fn trimmed_to(t: Terms, requested: Shares, got: Shares, price: i64, cash: i64) -> Deal
    ensures { result ≡ trimmed_to t requested.0 got.0 price cash }
{
    let asked = sizing::notional_of(requested, price);
    let lost = sums::saturating_sub(asked, sizing::notional_of(got, price));
    if got.is_zero() {
        return no_deal(price, cash, Some(lost));
    }
    dealt(t, got, price, cash, Some(lost))
}

// "If it exceeds cash, the fill becomes the largest step multiple, not above the request, whose need fits cash."
fn bought(t: Terms, quantity: Shares, price: i64, cash: i64) -> Deal
    ensures { result ≡ buy_deal t quantity.0 price cash }
{
    let need = sizing::buy_cash_required(quantity, price, t.costs);
    if need <= cash {
        return dealt(t, quantity, price, cash, None);
    }
    let got = sizing::largest_affordable_buy_qty(quantity, cash, t.quantity_step, price, t.costs);
    trimmed_to(t, quantity, got, price, cash)
}

// "A sell whose cash afterwards would be below 0 is skipped and not counted as trimmed."
fn sold(t: Terms, quantity: Shares, price: i64, cash: i64) -> Deal
    ensures { result ≡ sale_deal t quantity.0 price cash }
{
    let d = dealt(t, quantity, price, cash, None);
    if d.cash_after < 0 {
        return no_deal(price, cash, None);
    }
    d
}

// What an order comes to, given the cash: all of it, the part of a buy that cash covers, or nothing.
#[tactic(auto, unfolding(crate::specs::Inner::Deal::deal_of, crate::specs::Orders::paid))]
pub(crate) fn deal_of(o: Order, cash: i64, t: Terms) -> Deal
    ensures { result ≡ deal_of t o cash }
{
    let price = t.costs.effective_price(o.quantity, o.price);
    if o.quantity.is_zero() {
        return no_deal(price, cash, None);
    }
    if o.quantity.is_positive() {
        bought(t, o.quantity, price, cash)
    } else {
        sold(t, o.quantity, price, cash)
    }
}
