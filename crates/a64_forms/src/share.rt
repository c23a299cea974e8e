//! What the pieces of a line give.

use crate::form::Aim;

/// What a line names in place of a number: its text, which begins as a name does.
#[derive(Clone, Copy, Debug)]
pub struct Target<'a> {
    pub aim: Aim,
    pub text: &'a [u8],
}

/// Bits of a word, and a target that the line names.
#[derive(Clone, Copy, Debug)]
pub struct Share<'a> {
    pub bits: u32,
    pub target: Option<Target<'a>>,
}
