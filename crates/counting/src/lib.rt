// Finished rows as lines of text: what a line says, what its row counts, and what is wrong where it is no row.
#![tactic(auto)]

pub mod counts;
pub mod fault;
pub mod line;

pub use counts::{Counts, count_line, counts_of};
pub use fault::LineFault;
pub use line::{numbers, whole_number};
