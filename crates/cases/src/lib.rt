// Document 01's checked cases: definitions and one claim, evaluated by the prover. The code is in the crates below.

#![tactic(auto)]
