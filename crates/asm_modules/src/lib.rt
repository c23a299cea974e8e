//! Lines of assembly text as a module, or the first of them at fault.
#![tactic(auto)]

mod module;
mod place;

pub use module::{AsmAt, AsmInterval, AsmLabel, AsmModule};
pub use place::{Place, after, may_stand};
