//! What every layer stands on: small types that contracts see as lists, the error that has room for
//! want of memory, and the desk through which files are read and written.
#![tactic(auto)]

mod aux_fault;
mod bytes;
mod counts;
mod desk;
mod end;
mod honest_desk;
mod mem_desk;
mod real_desk;
mod seq;
mod store;
mod taker;
mod text;
mod whole;

pub use aux_fault::AuxFault;
pub use bytes::Bytes;
pub use desk::{Desk, DeskFault};
pub use end::End;
pub use honest_desk::HonestDesk;
pub use mem_desk::MemDesk;
pub use real_desk::RealDesk;
pub use seq::Seq;
pub use taker::Taker;
pub use text::Text;
pub use whole::{MOST, ReadEnd, WriteFault, read_into, read_whole, write_whole};
