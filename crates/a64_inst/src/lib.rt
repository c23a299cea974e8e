//! The A64 instructions of the integer profile: their words, and what they do.
#![tactic(auto)]

mod filling;
mod flags;
mod inst;
mod kind;
pub mod laws;
mod operations;
mod reserved;
mod rules;
mod trap;
mod words;

pub use filling::{FitFault, fit};
pub use flags::Flags;
pub use inst::Inst;
pub use kind::{Bits, KIND_WORDS, Kind, KindWords, Operand, is_branch, operand_kind};
pub use operations::{Binary, Op, Sum, Unary, Width};
pub use reserved::element_size;
pub use trap::Trap;
pub use words::encode;
