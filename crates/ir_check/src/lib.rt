//! Whether a module is a program: the first thing that is wrong with it, or how much there is of everything.
#![tactic(auto)]

mod aims;
mod checking;
mod counting;
mod exprs;
mod faults;
mod index;
mod kind;
pub mod laws;
mod loaded;
mod operands;
mod order;
mod part;
mod profile;
mod report;
mod sites;
mod span;
mod structure;
mod tables;
mod targets;

pub use checking::{check_program, pick_module};
pub use node_arena::CheckFault;
pub use profile::{Plain, Profile};
pub use report::CheckReport;
