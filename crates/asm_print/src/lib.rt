//! A module as assembly text.
#![tactic(auto)]

mod context;
mod data;
mod expressions;
mod keyed;
mod labels;
mod lines;
mod marks;
mod pieces;
mod places;
mod printing;
mod spot;

pub use printing::print_asm;
pub use spot::Spot;
