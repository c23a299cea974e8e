//! Laws: which steps of the symbolic machine are never stuck.
#![tactic(auto)]

pub mod laws;
