// What holds of every saved account and of every file: definitions and laws only.

#![tactic(auto)]
