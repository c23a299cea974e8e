//! Lines of assembly text as a module, or the first of them at fault.
#![tactic(auto)]

mod build;
mod first;
mod outcome;
mod second;
mod seen;

pub use outcome::build_module;
