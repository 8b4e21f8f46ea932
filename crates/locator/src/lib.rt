// The decoder of one plane of a word: its locator, and the test for one error.
#![tactic(auto)]

pub mod berlekamp;
pub mod locators;
pub mod plane;
pub mod single;
