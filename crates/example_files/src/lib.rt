//! GTIRB files as text, for tests. Of the words of a text,
//! `uNN` is an identifier of sixteen bytes NN with its length before it, and `iNN` without;
//! `vN` is a number as a varint, and `nN` in eight bytes;
//! `'text` is a text with its length before it;
//! `{` at a word's end opens a message, behind the bytes before it, and `}` closes it;
//! every other word is hexadecimal, or a name of other words, which begins with a capital letter.
//! A list of changes, as `NAME words; NAME words`, gives names other words than the text's own.
//!
//! And rows of such changes with what is expected of them, which programs read from files and count.
#![tactic(auto)]

mod count;
mod draft;
mod example;
mod identifiers;
mod names;
mod row;
mod spelling;

pub use count::{Count, Verdict};
pub use example::hello;
pub use identifiers::written_out;
pub use row::{Row, row_in, row_of};
pub use spelling::{SpellingFault, file_bytes};
