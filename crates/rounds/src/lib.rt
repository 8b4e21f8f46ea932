// Closing a round: V, the tables of rows that the senders' checks give, and what a column has found then.
#![tactic(auto)]

pub mod closing;
pub mod coded;
pub mod senders;
