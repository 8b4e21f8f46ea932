// The errors of all planes at the places where their roots were found.
#![tactic(auto)]

mod fractions;
pub mod roots;
pub mod weighted;
