//! The numbers that the instructions of the integer profile compute, for every machine that runs them.
#![tactic(auto)]

pub mod fields;
pub mod numbers;
pub mod products;
pub mod shifts;
pub mod sums;
pub mod turned;
