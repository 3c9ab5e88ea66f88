// Whole sets of numbers below 64 moved at once: for each map, the image of a set and the preimage of a set,
// by a few operations on the word.
#![tactic(auto)]

pub mod counts;
pub mod grid;

pub use counts::{one_up, one_up_into};
pub use grid::{first_row, first_row_into, row_down, row_down_into, to_diagonal, to_diagonal_into};
