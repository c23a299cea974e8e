//! The numeric machine: images run for a bounded number of instructions.
#![tactic(auto)]

mod access;
mod arithmetic;
mod branches;
mod cache;
mod call;
mod execute;
pub mod laws;
mod logic;
mod output;
mod pairs;
mod report;
mod results;
mod run;
mod runner;
mod running;
mod sources;
mod steps;

pub use a64_inst::Trap;
pub use report::{RunEnd, RunReport};
pub use run::run_image;
pub use running::Machine;
