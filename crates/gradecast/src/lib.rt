// Demand 3: the agreement of good columns over whole lists of the column's calls. Statements and proofs alone: no code runs here.
#![tactic(auto)]
