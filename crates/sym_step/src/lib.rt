//! One step of the symbolic machine. Where memory is wanted and there is none, nothing has changed.
#![tactic(auto)]

mod cache;
mod call;
mod changes;
mod choices;
mod common;
mod common_steps;
mod execute;
mod flags;
mod flow;
mod given;
pub mod laws;
mod loads;
mod output;
mod parts;
mod registers;
mod room;
mod runner;
mod stores;

pub use cache::{Cache, Found};
pub use common::{Common, End, Start};
pub use flow::Flow;
pub use output::Output;
pub use registers::Registers;
pub use runner::Runner;
