//! Bytes by address: all in one list, found by the pages that they touch, so that memory follows what is mapped and not
//! how far it is spread.
#![tactic(auto)]

mod memory;
mod pages;
mod part;
mod ranges;

pub use memory::Memory;
pub use ranges::byte_count;
