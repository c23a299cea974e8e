//! Graphs in which a module is rewritten, and then its edges and tables are repaired.
#![tactic(auto)]

mod moved;
mod repairing;
mod rewriting;

pub use moved::Moved;
pub use moved_modules::{MovedBlock, MovedInterval, NewFunction, Part, Piece, WordFrom};
pub use repairing::repair;
pub use rewriting::apply;
