// What holds of the house return of every group: definitions and laws only.

#![tactic(auto)]
