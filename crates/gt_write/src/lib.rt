//! Writes the canonical spelling of a GTIRB file.
#![tactic(auto)]

mod edges;
mod exprs;
mod file;
mod intervals;
pub mod laws;
mod messages;
mod modules;
mod records;
mod symbols;
mod tables;

pub use file::write_file;
