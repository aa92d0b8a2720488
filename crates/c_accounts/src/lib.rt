// The C interface, accounts in lent bytes: opening, setters and what an account tells of itself.
#![tactic(auto)]

pub mod change;
mod filed;
pub mod opening;
pub mod query;
