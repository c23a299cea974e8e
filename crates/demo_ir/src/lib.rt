//! A generated IR: a program of so many blocks that each add a constant and branch to the next, and a
//! last one that exits with the sum.
#![tactic(auto)]

mod blocks;
mod code;
mod identifiers;
mod ir;
pub mod laws;

pub use code::{demo_bytes, demo_exit};
pub use ir::demo_ir;
