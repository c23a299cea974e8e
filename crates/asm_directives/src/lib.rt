//! Lines of assembly text, directives among them.
#![tactic(auto)]

mod difference;
mod directive;
mod filled;
mod instant;
mod interval;
pub mod laws;
mod mark;
mod number;
mod operands;
mod reading;
mod value;

pub use reading::read_asm_line;
