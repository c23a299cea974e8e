//! Bare images: the segments of a linked program with its entry and its stack, and their bytes.
#![tactic(auto)]

mod fault;
mod fields;
mod image;
pub mod laws;
mod reading;
mod rules;
mod writing;

pub use fault::ImageFault;
pub use image::{Image, Segment};
pub use reading::read_image;
pub use writing::write_image;
