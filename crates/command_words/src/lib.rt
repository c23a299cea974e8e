//! The words of the command line: which jobs there are, which words each takes, and what they ask for.
#![tactic(auto)]

pub mod laws;
mod number;
mod role;
mod table;
mod words;

pub use number::{flags_of, is_every};
pub use role::{ROLES, Role};
pub use table::Job;
pub use words::{Picked, Settings, parse_words};
