/// Where a word of a block with patches comes from.
#[derive(Clone, Copy, Debug, PartialEq, Eq)]
pub enum Origin {
    /// The block's own word at an offset.
    Own(u64),
    /// The inserted word of this number, from 0 in the order of the patches.
    Inserted(u64),
}

/// A word of a block with patches.
#[derive(Clone, Copy, Debug, PartialEq, Eq)]
pub struct PatchedWord {
    pub word: u32,
    pub origin: Origin,
}
