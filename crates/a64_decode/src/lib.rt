//! The instruction of a word.
#![tactic(auto)]

mod bits;
mod branches;
mod decoding;
mod immediate;
mod memory;
mod registers;

pub use decoding::decode;
