//! A program with the indexes that a machine needs, so that no step searches.
#![tactic(auto)]

mod building;
mod code;
mod indexed;
mod inserted;
mod looking;
mod spot;

pub use indexed::IndexedProgram;
pub use sym_expr::{DataBlock, Point, Program, Word};
