// Tallies: what is counted along a row of hatchings.
#![tactic(auto)]

pub mod finished;
pub mod outcome;
mod outside;
pub mod plateau;
pub mod stretch;
pub mod tally;

pub use finished::{FinishedRow, RowFault, check_finished};
pub use outcome::outcome_of;
pub use plateau::PlateauCounter;
pub use stretch::StretchCounter;
pub use tally::Tally;
