//! The rewritten IR as a value: what a module becomes once patches insert words and bring functions.
#![tactic(auto)]

mod intervals;
pub mod laws;
mod modules;
mod sections;

pub use modules::{rewritten_ir, rewritten_module, with_module};
