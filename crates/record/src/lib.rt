// The record of a row of parts: for each part a palette of hatchings, the results that are allowed,
// how the row stands, and at most eight marks to go back to.
// A call that is refused says why, and leaves the record as it was.
#![tactic(auto)]

mod laying;
mod looking;
mod marking;
pub mod moment;
mod narrowing;
pub mod record;
pub mod refusal;
pub mod stand;
pub mod undo;

pub use moment::Moment;
pub use record::Record;
pub use refusal::Refusal;
pub use stand::Stand;
pub use undo::UndoTable;
