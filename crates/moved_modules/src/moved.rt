//! What becomes of the blocks and intervals of a module that is rewritten, and which functions come with it.

use gr_base::Seq;
use sym_expr::PatchTarget;
use uuid::Uuid;

/// What a rewriting moved: blocks and intervals in which words are inserted, in order, and the functions that are new.
#[derive(Debug, Drop)]
pub struct Moved {
    pub blocks: Seq<MovedBlock>,
    pub intervals: Seq<MovedInterval>,
    pub functions: Seq<NewFunction>,
}

/// A block in which words are inserted, and the parts that it is cut into.
#[derive(Debug, Drop)]
pub struct MovedBlock {
    pub block: Uuid,
    pub parts: Seq<Part>,
}

/// A part of a block: its offset from the block's new start, its size in bytes, and where its words come from.
#[derive(Debug, Drop)]
pub struct Part {
    pub uuid: Uuid,
    pub start: u64,
    pub size: u64,
    pub words: Seq<WordFrom>,
}

/// Where a word comes from.
#[derive(Debug, Drop)]
pub enum WordFrom {
    /// The block's own word at an offset.
    Old(u64),
    /// The patches, with what its operand names.
    Insert(Option<PatchTarget>),
}

/// An interval in which words are inserted, its size before and after, and where its bytes go.
#[derive(Debug, Drop)]
pub struct MovedInterval {
    pub interval: Uuid,
    pub old_size: u64,
    pub new_size: u64,
    pub pieces: Seq<Piece>,
}

/// Bytes that stay together: where they were, how many there are, and where they go.
#[derive(Clone, Copy, Debug, PartialEq, Eq)]
pub struct Piece {
    pub from: u64,
    pub len: u64,
    pub to: u64,
}

/// A function that the patches brought: its identifier, its symbol, and its blocks in order.
#[derive(Debug, Drop)]
pub struct NewFunction {
    pub uuid: Uuid,
    pub symbol: Uuid,
    pub blocks: Seq<Uuid>,
}
