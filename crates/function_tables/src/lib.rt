//! The auxiliary tables of functions, once their module is repaired.
#![tactic(auto)]

mod blocks;
mod entries;
mod kinds;
mod later;
pub mod laws;
mod sets;
mod values;

pub use kinds::{TableKind, kind_of};
pub use later::LaterParts;
pub use values::with_functions;
