//! Where Places go once words are inserted in a module: to the parts and the new offsets of what they name.
#![tactic(auto)]

mod blocks;
mod index;
mod interval;
mod intervals;
mod kept;
mod looking;
mod moves;
mod sizes;

pub use moves::Moves;
