//! Byte intervals once patches insert words in their blocks, and those of the functions that patches bring.
#![tactic(auto)]

mod blocks;
mod contents;
mod control;
mod cutting;
mod exprs;
mod functions;
mod inserts;
mod moves;
mod runs;
mod spots;
mod values;
mod whole;

pub use functions::function_interval;
pub use inserts::Inserts;
pub use whole::rewritten_interval;
