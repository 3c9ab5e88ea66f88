// What the live states of a row tell: used hatchings, results, whether a row is complete, and the first complete row.
#![tactic(auto)]

pub mod first;
pub mod reading;

pub use first::write_first;
pub use reading::{is_possible, results_at, used_at};
