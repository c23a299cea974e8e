use crate::point::Point;
use crate::target::Target;
use gr_base::{Bytes, Seq};
use uuid::Uuid;

/// A word, and what its operand names, if it names something.
#[derive(Clone, Copy, Debug, PartialEq, Eq)]
pub struct Word {
    pub word: u32,
    pub target: Option<Target>,
}

/// What stands in data for an expression.
#[derive(Clone, Copy, Debug, PartialEq, Eq)]
pub enum Filling {
    /// An address of eight bytes.
    Pointer(Target),
    /// A difference of so many bytes: the first target less the second.
    Difference(u8, Target, Target),
    /// An entry of a table of jumps: its bytes, its scale, and the two targets.
    Entry(u8, u8, Target, Target),
}

/// A code block: its offset in the interval before anything is inserted, its own words, and the
/// inserted words by their offset in the block, in the order of the patches.
#[derive(Debug, Drop)]
pub struct CodeBlock {
    pub id: Uuid,
    pub offset: u64,
    pub own: Seq<Word>,
    pub inserted: Seq<(u64, Word)>,
}

/// A data block: its offset as for code, its bytes, what stands in them for expressions, by the
/// offset in the block, and its entry among the alignments.
#[derive(Debug, Drop)]
pub struct DataBlock {
    pub id: Uuid,
    pub offset: u64,
    pub bytes: Bytes,
    pub fillings: Seq<(u64, Filling)>,
    pub alignment: Option<u64>,
}

/// A block of an interval, or the bytes between two.
#[derive(Debug, Drop)]
pub enum Piece {
    Code(CodeBlock),
    Data(DataBlock),
    Gap(Bytes),
}

/// An interval: its address, if it has one, and its pieces in block order, which have all its bytes.
#[derive(Debug, Drop)]
pub struct Stretch {
    pub id: Uuid,
    pub address: Option<u64>,
    pub pieces: Seq<Piece>,
}

/// A program: the intervals of loaded sections in order, those of the patches' functions last in the
/// section of the entry, and where it starts. Machines, layouts and images ask nothing else of a module.
#[derive(Debug, Drop)]
pub struct Program {
    pub stretches: Seq<Stretch>,
    pub entry: Point,
}
