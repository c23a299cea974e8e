//! The operations that an instruction is made of, as a list that takes no memory, and the functions that they name.
#![tactic(auto)]

mod functions;
pub mod laws;
mod list;
mod parts;
mod rows;

pub use functions::{binary, unary};
pub use list::OpList;
pub use rows::ops;
