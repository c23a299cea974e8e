//! Images of programs have what the runs of both machines rest on: each function is its contract.
#![tactic(auto)]

pub mod laws;
