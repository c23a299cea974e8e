//! The values of auxiliary tables, as bytes and back.
#![tactic(auto)]

mod decode;
mod encode;
pub mod laws;
mod order;
mod part;
mod places;
mod scalar;
mod seen;
mod unit;
mod value;

pub use decode::decode_aux;
pub use encode::encode_aux;
pub use gr_base::AuxFault;
pub use places::{Places, map_places};
pub use value::{AuxPair, AuxValue, Place};
