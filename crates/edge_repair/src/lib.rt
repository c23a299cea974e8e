//! The repaired IR: a rewritten IR with its edges, vertices and tables.
#![tactic(auto)]

pub mod laws;
