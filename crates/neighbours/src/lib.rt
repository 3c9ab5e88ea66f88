// Which hatchings may stand side by side in a row, in a table, so that the rule is asked once for each pair.
#![tactic(auto)]

pub mod table;

pub use table::{Neighbours, neighbours_of};
