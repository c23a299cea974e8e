//! The spellings of A64 instructions.
#![tactic(auto)]

mod bits;
mod form;
mod forms;
mod joining;
pub mod laws;
mod names;
mod number;
mod piece;
mod reading;
mod share;
mod slots;

pub use form::{Aim, Apart, FormRow, NameRow, Names, Numbers, PieceRow, Slot};
pub use forms::{ACCESSES, BRANCHES, IMMEDIATES, INDEXED, PAIRS, REGISTERS};
pub use number::{is_number_word, read_number};
pub use reading::{read_shape, read_spelling};
pub use share::{Share, Target};
