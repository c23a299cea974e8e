//! Laws of rewritten and repaired IRs: they stay linked and in order, and no two Places of their tables go to one.
#![tactic(auto)]

pub mod laws;
