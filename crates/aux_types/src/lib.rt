//! The types of auxiliary tables, and the texts that name them.
#![tactic(auto)]

mod aux_type;
mod fault;
mod kind;
pub mod laws;
mod name;
mod reading;
mod writing;

pub use aux_type::AuxType;
pub use fault::TypeFault;
pub use kind::Kind;
pub use name::Scalar;
pub use reading::parse_type;
pub use writing::print_type;
