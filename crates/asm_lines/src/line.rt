//! What a line of assembly can say.

use gr_base::{Bytes, Text};
use uuid::Uuid;

/// A name, and which of the symbols of that name is meant, where that is written.
#[derive(Debug, Drop)]
pub struct AsmName {
    pub name: Text,
    pub ordinal: Option<u64>,
}

/// A label, and so many bytes from it.
#[derive(Debug, Drop)]
pub struct AsmExpr {
    pub label: AsmName,
    pub offset: i64,
}

/// What stands in an interval.
#[derive(Debug, Drop)]
pub enum AsmItem {
    /// These bytes.
    Bytes(Bytes),
    /// So many zeros.
    Zero(u64),
    /// An address, of eight bytes.
    Quad(AsmExpr),
    /// A difference and an offset, of eight bytes.
    QuadDiff(AsmName, AsmName, i64),
    /// A difference and an offset, of four bytes.
    WordDiff(AsmName, AsmName, i64),
    /// An entry of a table: its size, by what its difference is divided, and the two labels.
    Entry(u8, u8, AsmName, AsmName),
    /// A word, and what fills its operand.
    Word(u32, Option<AsmExpr>),
}

/// What a line says.
#[derive(Debug, Drop)]
pub enum AsmLine {
    /// Nothing.
    Blank,
    /// An absolute label.
    Set(AsmName, u64),
    /// A section begins.
    Section(Text),
    /// An interval begins, with its alignment and residue.
    Interval(Uuid, u64, Option<u64>),
    /// A label of this position.
    Label(AsmName),
    /// The entry is at this position.
    Entry,
    /// An item stands here.
    Item(AsmItem),
}
