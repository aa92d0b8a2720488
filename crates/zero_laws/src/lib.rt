// A zero setting's sign changes no call: definitions and laws only.

#![tactic(auto)]
