//! How words and labels are written in assembly text.
#![tactic(auto)]

mod bits;
mod by_table;
mod forms;
mod label;
pub mod laws;
mod named;
mod slots;
mod words;
mod written;

pub use label::{label_text, offset_text, quoted};
pub use named::Named;
pub use words::{word_line, word_texts};
pub use written::{Texts, Written};
