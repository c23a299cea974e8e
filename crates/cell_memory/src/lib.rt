//! The memory of a symbolic machine: the cells of each object. Plain numbers stand in bytes, and what is no number is kept
//! whole, by the offset of its first cell.
#![tactic(auto)]

mod block;
mod cells;
mod fillings;
pub mod laws;
mod loads;
mod memory;
mod reading;
mod same;
mod stored;
mod stores;
mod whole;

pub use memory::CellMemory;
pub use whole::Entry;
