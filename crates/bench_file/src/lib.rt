// A bench file: what it says of a group, read command by command, and where in it its values and messages stand.
#![tactic(auto)]

mod commands;
pub mod places;
mod reader;
pub mod reading;
