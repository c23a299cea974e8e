use crate::words::PatchedWord;
use gr_base::Seq;

/// A part of a block with patches: its offset from the block's new start, and its words.
#[derive(Debug, Drop)]
pub struct Part {
    pub start: u64,
    pub words: Seq<PatchedWord>,
}
