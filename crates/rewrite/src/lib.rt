//! The rewritten IR: what a module becomes once patches insert words in its blocks and bring functions.
#![tactic(auto)]

pub mod laws;
