//! The symbolic machine: programs run for a bounded number of instructions, before any layout is chosen.
#![tactic(auto)]

mod machine;
mod module_run;
mod next;
mod program_run;
mod report;
mod steps;

pub use a64_inst::Trap;
pub use machine::SymMachine;
pub use module_run::run_symbolic;
pub use program_run::run_program;
pub use report::{Next, SymEnd, SymReport};
pub use sym_expr::{Cause, Point};
