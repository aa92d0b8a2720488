// The C interface: what an account in lent bytes is worth at prices in lent bytes.
// Kept: entries take lent bytes and return a number, since C calls them, and each tests the answer beside the figures that its query gives.
#![tactic(auto)]

mod asked;
mod summary;
mod unpriced;
mod weighing;
mod worth;
