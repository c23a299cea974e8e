//! The symbols of a rewritten module, as values.
#![tactic(auto)]

mod control;
mod index;
mod last_parts;
mod names;
mod symbols;

pub use last_parts::id_of_part;
pub use names::block_count;
pub use symbols::new_symbols;
