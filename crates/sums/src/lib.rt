// Sums over rows of byte planes, and the values of their polynomials at a place.
#![tactic(auto)]

pub mod places;
pub mod rows;
