use asm_read::TextReason;

/// Why a line of patch text is refused.
#[derive(Clone, Copy, Debug, PartialEq, Eq)]
pub enum PatchReason {
    /// It has not the form of a line that may stand there.
    Text(TextReason),
    /// It names no code block of a loaded section.
    UnknownBlock,
    /// No word begins at the offset, nor ends the block there.
    BadOffset,
    /// The name is a symbol's, or stands before.
    NameTaken,
    /// There are too many instructions before it.
    TooMany,
    /// No symbol has the name.
    UnknownName,
    /// Several symbols have the name, and it isn't said which one is meant.
    Ambiguous,
    /// The instruction may not name this.
    BadTarget,
}

/// The first line at fault, counted from 1.
#[derive(Clone, Copy, Debug, PartialEq, Eq)]
pub struct PatchFault {
    pub line: u64,
    pub reason: PatchReason,
}
