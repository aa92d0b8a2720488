// What the place of a refusal says of the lists that were given: definitions and laws only.

#![tactic(auto)]
