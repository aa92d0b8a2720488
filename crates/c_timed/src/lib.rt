// Calls by value, each made as often as it is asked for, and at least once: what a call takes without the bytes of the C interface is timed
// through these. What the last one left is written to lent bytes, so that its work is not left out as unused. Each returns the answer's word;
// a refusal leaves the lent bytes as found.
#![tactic(auto)]

mod made;
mod rebalancing;
mod recording;
mod summary;
