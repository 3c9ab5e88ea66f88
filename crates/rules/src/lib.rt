// Neighbour rules: which hatching may stand right after which.
#![tactic(auto)]

pub mod formula;
pub mod mirror;
pub mod neighbours;
pub mod table;

pub use formula::FormulaRule;
pub use mirror::Mirror;
pub use neighbours::NeighbourRule;
pub use table::TableRule;
