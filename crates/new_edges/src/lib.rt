//! The edges and vertices of a repaired IR, as values.
#![tactic(auto)]

mod blocks;
mod context;
mod functions;
mod index;
mod inserted;
mod leaving;
mod loaded;
mod moved;
mod names;
mod new_end;
mod parts;
mod rows;
mod symbols;
mod whole;

pub use whole::repaired_cfg;
