//! Patch text: what is inserted in a module's code, and which functions come with it.
#![tactic(auto)]

mod asm;
pub mod laws;
mod line;
mod own;
mod reading;
mod text;

pub use patch_lines::{PatchFault, PatchReason};
pub use reading::read_patches;
