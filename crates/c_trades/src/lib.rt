// The C interface: calls that trade, and the return of a period, on an account in lent bytes.
#![tactic(auto)]

mod asked;
mod closing;
mod filing;
mod rebalancing;
mod recording;
