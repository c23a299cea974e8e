//! The Protocol Buffers wire format: the records of a message one after another, and the shortest
//! spellings of keys, numbers and byte runs.
#![tactic(auto)]

mod cursor;
mod fault;
pub mod laws;
mod put;
mod reading;
mod records;
mod scanning;

pub use cursor::Cursor;
pub use fault::{WireFault, WireReason};
pub use put::{put_bytes, put_key, put_varint};
pub use reading::read_varint;
pub use records::{Load, Record, Scan, Span};
pub use scanning::scan;
