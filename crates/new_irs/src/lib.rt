//! The IR that patches make of an IR, whole.
#![tactic(auto)]

mod repaired;

pub use repaired::repaired_ir;
