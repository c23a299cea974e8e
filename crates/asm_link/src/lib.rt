//! Modules of assembly: their shapes, and their images under a layout.
#![tactic(auto)]

mod bytes;
mod index;
mod linking;
mod number;
mod segments;
mod shaping;
mod sizes;

pub use linking::link_asm;
pub use shaping::shape_asm;
