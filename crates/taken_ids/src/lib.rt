//! Whether the identifiers that patches derive are free in an IR, and the parts that patched blocks are cut into.
#![tactic(auto)]

mod check;
mod control;
mod cutting;
mod derived;
mod fault;
mod functions;
pub mod laws;
mod named;
mod nodes;
mod parts;
mod taken;
mod words;

pub use check::check_ids;
pub use fault::RewriteFault;
pub use parts::parts_of_block;
pub use words::patched_words;
