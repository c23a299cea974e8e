//! What becomes of the blocks and intervals of a module once patches insert words and bring functions.
#![tactic(auto)]

mod blocks;
mod functions;
mod intervals;
mod moved;
mod targets;
mod whole;

pub use moved::{Moved, MovedBlock, MovedInterval, NewFunction, Part, Piece, WordFrom};
pub use whole::moved_in;
