//! The program of a module and its patches, as a value.
#![tactic(auto)]

mod bytes;
mod context;
mod counts;
mod cut;
mod data;
mod expressions;
mod forms;
mod functions;
mod index;
mod inserted;
mod loaded;
mod names;
mod order;
mod pieces;
mod symbols;
mod target;
mod unpatched;
mod whole;
mod words;

pub use unpatched::unpatched_program;
pub use whole::program_of;
