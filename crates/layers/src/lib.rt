// The engine: exactly the live states of a row, for every neighbour rule and every tally.
#![tactic(auto)]

mod backward;
mod forward;
mod layer;
pub mod live;
pub mod shortage;
mod store;

pub use live::{Problem, check_scratch, write_live};
pub use shortage::Shortage;
