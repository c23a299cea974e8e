//! What the program says of faults and of runs, in words.
#![tactic(auto)]

mod fault_text;
mod sim_state;
mod state;

pub use fault_text::{CheckNote, LayoutNote, LinkNote, PatchNote, RewriteNote};
pub use sim_state::sim_note;
pub use state::state_note;
