//! The words of code blocks once patches insert some, and the parts that such blocks are cut into.
#![tactic(auto)]

pub mod laws;
mod parts;
mod words;

pub use parts::Part;
pub use words::{Origin, PatchedWord};
