// Demand 3 of what the bench prints, wherever at most t columns of a bench file are bad. Statements and proofs alone: no code runs here.
#![tactic(auto)]
