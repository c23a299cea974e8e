//! Identifiers that are derived from a module's, for what patches bring.
#![tactic(auto)]

mod identifiers;

pub use identifiers::{block_id, function_id, interval_id, part_id, symbol_id};
