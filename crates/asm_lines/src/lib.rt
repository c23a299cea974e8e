//! Lines of assembly: labels, label expressions, and what a line says.
#![tactic(auto)]

mod cut;
mod expression;
mod instruction;
mod label;
pub mod laws;
mod line;
mod name;
mod reading;
mod run;

pub use cut::texts_of;
pub use expression::read_expression;
pub use label::{read_label, split_label};
pub use line::{AsmExpr, AsmItem, AsmLine, AsmName};
pub use reading::read_line;
