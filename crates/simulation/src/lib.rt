//! Laws of the two machines: where the symbolic machine of a program isn't stuck, the numeric machine of
//! the placed program does the same.
#![tactic(auto)]

pub mod laws;
