//! What the auxiliary tables of a module say of a program.
#![tactic(auto)]

mod entries;
mod found;
mod named;
mod places;
mod reading;
mod tables;

pub use found::Found;
pub use tables::{ProgramTables, program_tables};
