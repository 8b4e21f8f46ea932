// Values counted over a table of rows: Y, values and confidences.
#![tactic(auto)]

pub mod filling;
mod found;
mod leaders;
pub mod table;
pub mod tally;
pub mod vector;
