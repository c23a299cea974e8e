//! The auxiliary tables of a module once it is repaired: their Places moved, and the blocks, entries and symbols of new
//! parts and functions in those that have such.
#![tactic(auto)]

mod repair;
mod table;
mod tables;

pub use tables::repaired_tables;
