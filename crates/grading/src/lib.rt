// Values counted over tables of rows, and why the counts of good columns agree: definitions and proofs, and no code.
#![tactic(auto)]
