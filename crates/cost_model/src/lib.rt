// Transaction cost modeling.
#![tactic(auto)]

ghost use Rattle.std.specs.Prelude.{◌≡◌, nat_abs};
ghost use Rattle.position.specs.Shares.{is_positive};
ghost use Rattle.cost_model.specs.Costs.{free, commission, at_most, cost, sign, slippage_factor, slipped, effective, good_rate, good_ceiling, good_costs};

use position::Shares;

// Transaction costs: a commission in basis points of notional with a minimum and a maximum per fill, and slippage as price impact. "The two rates and
// the floor travel together as one value", and the ceiling with them.
#[derive(Clone, Copy)]
pub struct CostModel {
    // Commission in basis points (1 bps = 0.01%).
    pub commission_bps: f64,
    // Slippage estimate in basis points.
    pub slippage_bps: f64,
    // Minimum commission per fill (cents).
    pub min_commission: i64,
    // Maximum commission per fill (cents); 0 is none.
    // Kept: no Option, as document 02 says "Settings gain a ceiling, 0 meaning none".
    pub max_commission: i64,
}

impl CostModel {
    // A zero-cost model (no fees, no slippage).
    #[tactic(auto, using(crate::proofs::Constants::zero_is))]
    pub fn zero() -> CostModel
        ensures { result ≡ free }
    {
        CostModel {
            commission_bps: 0.0,
            slippage_bps: 0.0,
            min_commission: 0,
            max_commission: 0,
        }
    }

    // Whether every part is in its bounds: document 01's, and for the ceiling document 02's.
    #[tactic(auto, using(crate::proofs::Constants::zero_is, crate::proofs::Constants::ten_thousand_is), unfolding(crate::specs::Costs::good_costs))]
    pub fn is_good(self) -> bool
        ensures { result ≡ good_costs self }
    {
        good_rate(self.commission_bps)
            && 0.0 <= self.slippage_bps
            && self.slippage_bps <= 10_000.0
            && 0 <= self.min_commission
            && good_ceiling(self.min_commission, self.max_commission)
    }

    // Commission for a trade of the given notional (cents), "and at least `min_commission`", for every notional, rate, floor and ceiling: a NaN counts
    // 0, and what is too large saturates.
    #[tactic(auto, unfolding(crate::specs::Costs::cost, crate::specs::Costs::uncapped, crate::specs::Costs::at_least))]
    pub fn compute_cost(self, notional: i64) -> i64
        ensures { result ≡ cost self notional }
    {
        let rated = commission(self.commission_bps, notional);
        at_most(self.max_commission, self.min_commission.max(rated))
    }

    // The factor that slippage puts on a buy's price or on a sale's.
    #[tactic(auto, using(crate::proofs::Constants::one_is, crate::proofs::Constants::ten_thousand_is), unfolding(crate::specs::Costs::slippage_factor))]
    pub fn slippage_factor(self, buying: bool) -> f64
        ensures { result ≡ slippage_factor self buying }
    {
        1.0 + side(buying) * self.slippage_bps / 10_000.0
    }

    // The price after slippage of a fill of so many micro-shares, below 0 for a sale.
    // Kept: two calls, so that neither factor depends on the quantity and a compiler can take both out of a loop of fills.
    #[tactic(auto, unfolding(crate::specs::Costs::effective))]
    pub fn effective_price(self, quantity: Shares, price: i64) -> i64
        ensures { result ≡ effective self (is_positive quantity.0) price }
    {
        if quantity.is_positive() {
            slipped(self.slippage_factor(true), price)
        } else {
            slipped(self.slippage_factor(false), price)
        }
    }
}

// A price times the factor, rounded: the price goes through a double even where the factor is 1.
#[tactic(auto, unfolding(crate::specs::Costs::slipped))]
pub fn slipped(factor: f64, price: i64) -> i64
    ensures { result ≡ slipped factor price }
{
    doubles::round_to_i64(doubles::i64_to_f64(price) * factor)
}

// "Commission is round(notional × bps / 10,000), multiplied first".
#[tactic(auto, using(crate::proofs::Constants::ten_thousand_is), unfolding(crate::specs::Costs::commission))]
fn commission(bps: f64, notional: i64) -> i64
    ensures { result ≡ commission bps (nat_abs notional) }
{
    let amount = doubles::u64_to_f64(notional.unsigned_abs());
    doubles::round_to_i64(amount * bps / 10_000.0)
}

// "the lesser of today's commission and the ceiling", "0 meaning none"
fn at_most(ceiling: i64, charged: i64) -> i64
    ensures { result ≡ at_most ceiling charged }
{
    if ceiling == 0 {
        charged
    } else {
        charged.min(ceiling)
    }
}

#[tactic(auto, using(crate::proofs::Constants::one_is, crate::proofs::Constants::minus_one_is))]
fn side(buying: bool) -> f64
    ensures { result ≡ sign buying }
{
    if buying { 1.0 } else { -1.0 }
}

#[tactic(auto, using(crate::proofs::Constants::zero_is), unfolding(crate::specs::Costs::good_rate))]
fn good_rate(x: f64) -> bool
    ensures { result ≡ good_rate x }
{
    doubles::is_finite(x) && 0.0 <= x
}

// A ceiling equal to the floor is good: a flat fee.
fn good_ceiling(floor: i64, ceiling: i64) -> bool
    ensures { result ≡ good_ceiling floor ceiling }
{
    ceiling == 0 || floor <= ceiling
}
