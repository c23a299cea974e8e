//! The one call that does all that the program does: its answers, and what files hold afterwards.
#![tactic(auto)]

mod answer;
mod inputs;
mod note;
mod output;
mod serve;

pub use answer::Answer;
pub use command_words::Role;
pub use gt_read::FormatFault;
pub use ir_check::{CheckFault, CheckReport};
pub use layout_plan::LayoutFault;
pub use link_image::LinkFault;
pub use note::note_text;
pub use serve::serve_words;
