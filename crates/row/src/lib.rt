// A row of parts under one neighbour rule and one tally, and the calls on it.
#![tactic(auto)]

pub mod calls;
pub mod settling;

pub use calls::Row;
pub use settling::settle;
