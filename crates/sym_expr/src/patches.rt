//! What is inserted in a module's code, and which functions come with it.

use gr_base::{Seq, Text};
use uuid::Uuid;

/// Patches: words that go into code blocks, and functions that are added.
#[derive(Debug, Drop)]
pub struct PatchTable {
    pub inserts: Seq<Insert>,
    pub functions: Seq<Function>,
}

/// Words that are inserted in a code block, before the word at this offset or, at the block's size,
/// at its end.
#[derive(Debug, Drop)]
pub struct Insert {
    pub block: Uuid,
    pub offset: u64,
    pub body: Seq<PatchWord>,
}

/// A function that is added, with its words and the labels between them.
#[derive(Debug, Drop)]
pub struct Function {
    pub name: Text,
    pub body: Seq<FunLine>,
}

/// A line of a function.
#[derive(Debug, Drop)]
pub enum FunLine {
    /// A name for the word that follows, or for the end.
    Label(Text),
    Word(PatchWord),
}

/// A word, and what its operand names, if it names something.
#[derive(Debug, Drop)]
pub struct PatchWord {
    pub word: u32,
    pub target: Option<PatchTarget>,
}

/// A symbol plus an offset in bytes.
#[derive(Debug, Drop)]
pub struct PatchTarget {
    pub symbol: SymbolName,
    pub offset: i64,
}

/// A symbol of the module by its identifier, or a name that the patches bring.
#[derive(Debug, Drop)]
pub enum SymbolName {
    Old(Uuid),
    New(Text),
}
