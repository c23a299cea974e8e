//! Lines of patch text, once read, as a table of patches for a module, or the first of them at fault.
#![tactic(auto)]

mod blocks;
mod fault;
mod first;
mod index;
mod keyed;
pub mod laws;
mod line;
mod names;
mod outcome;
mod place;
mod second;
mod spot;
mod symbols;
mod table;
mod target;

pub use fault::{PatchFault, PatchReason};
pub use index::Index;
pub use line::{LabelName, LabelSum, PatchLine, Spot};
pub use outcome::build_table;
