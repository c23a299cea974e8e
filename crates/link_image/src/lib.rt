//! The linker: the image of a program under a layout.
#![tactic(auto)]

mod blocks;
mod code;
mod faults;
mod fillings;
mod index;
pub mod laws;
mod linker;
mod linking;
mod modules;
mod pieces;
mod segments;
mod values;
mod words;

pub use bare_image::{Image, ImageFault, Segment, read_image, write_image};
pub use linking::link_program;
pub use modules::link;
pub use sym_expr::{Layout, LinkFault};
