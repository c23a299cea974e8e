//! Lines of text: their words, and the numbers and identifiers among them.
#![tactic(auto)]

mod fault;
mod identifier;
pub mod laws;
mod number;
mod words;

pub use fault::{TextFault, TextReason};
pub use identifier::read_uuid;
pub use number::read_number;
pub use words::split_words;
