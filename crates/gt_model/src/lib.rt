//! The intermediate representation of a GTIRB file as plain values, whose fields are all public.
#![tactic(auto)]

mod copying;
mod edges;
mod exprs;
mod intervals;
mod ir;
pub mod laws;
mod modules;
mod symbols;
mod tables;

pub use copying::{CopyIn, copy_all};
pub use edges::{Cfg, Edge, Label};
pub use exprs::{Expr, ExprValue};
pub use intervals::{Block, Body, Interval};
pub use ir::Ir;
pub use modules::{Module, Section};
pub use symbols::{Payload, Symbol};
pub use tables::Aux;
