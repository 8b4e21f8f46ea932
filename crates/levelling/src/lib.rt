// Ask 4 of the change requests: exchange after exchange the good columns' levels come together. Statements and proofs alone: no code runs here.
#![tactic(auto)]
