//! Laws: the image of a repaired module is that of the module and its patches.
#![tactic(auto)]

pub mod laws;
