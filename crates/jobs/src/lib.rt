//! What each job makes of the values of its words and the contents of its inputs.
#![tactic(auto)]

mod check;
mod contents;
mod demo;
mod formed;
pub mod laws;
mod layout;
mod link;
mod making;
mod modules;
mod printing;
mod program;
mod recode;
mod rewriting;
mod run;
mod sim;
mod stages;
mod verdict;

pub use contents::Contents;
pub use making::make;
pub use verdict::{Finished, Refusal};
