// When the order in which orders run matters: definitions and laws only.

#![tactic(auto)]
