//! Laws: lines of printed assembly text are read as what they stand for.
#![tactic(auto)]

pub mod laws;
