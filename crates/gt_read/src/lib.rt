//! Reads GTIRB files.
#![tactic(auto)]

mod block_drafts;
mod blocks;
mod bodies;
mod carry;
mod children;
mod edge_drafts;
mod edges;
mod expr_drafts;
mod exprs;
mod fault;
mod feeding;
mod feeding_drafts;
mod file;
mod ids;
mod intervals;
mod irs;
pub mod laws;
mod message;
mod module_drafts;
mod modules;
mod names;
mod packed;
mod pieces;
mod slots;
mod symbols;
mod tables;

pub use fault::FormatFault;
pub use feeding::Feeder;
pub use file::read_file;
