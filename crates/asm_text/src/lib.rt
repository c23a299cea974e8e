//! Assembly text: the module that it gives, or its first line at fault.
#![tactic(auto)]

pub mod laws;
mod reading;
mod text;

pub use asm_modules::{AsmAt, AsmInterval, AsmLabel, AsmModule};
pub use reading::read_asm;
