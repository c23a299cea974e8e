//! What a line of patch text can say.

use gr_base::Text;
use uuid::Uuid;

/// A name, and which of the symbols of that name is meant, where that is written.
#[derive(Debug, Drop)]
pub struct LabelName {
    pub name: Text,
    pub ordinal: Option<u64>,
}

/// A label, and so many bytes from it.
#[derive(Debug, Drop)]
pub struct LabelSum {
    pub label: LabelName,
    pub offset: i64,
}

/// Where an insert goes: a block by its identifier, or the block of a symbol.
#[derive(Debug, Drop)]
pub enum Spot {
    Block(Uuid),
    Symbol(LabelName),
}

/// What a line of patch text says, or would say with other numbers.
#[derive(Debug, Drop)]
pub enum PatchLine {
    /// Nothing.
    Blank,
    /// An insert begins, at an offset of a block.
    Insert(Spot, u64),
    /// A function begins.
    Function(Text),
    /// A label of this position.
    Label(Text),
    /// A word, and what fills its operand.
    Word(u32, Option<LabelSum>),
    /// An insert or a function ends.
    End,
    /// With another number it would begin an insert.
    UnfitInsert,
    /// With other numbers it would be an instruction.
    UnfitWord,
    /// No line, whatever its numbers.
    Other,
}
