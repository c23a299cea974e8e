//! What is kept of the blocks of a program, by their identifiers.

use gr_base::Seq;
use indexmap::IndexMap;
use sym_expr::{Point, Word};
use uuid::Uuid;

/// A piece of a program: the number of its interval, and its number there.
#[derive(Clone, Copy, Debug, PartialEq, Eq)]
pub struct Spot {
    pub stretch: usize,
    pub piece: usize,
}

/// What is kept of a code block: its piece, its offset in the interval once words are inserted, the
/// inserted words by their offsets, and where it goes on behind its last word, if it does.
#[derive(Drop)]
pub struct CodeSpot {
    pub spot: Spot,
    pub at: u64,
    pub inserted: Seq<(u64, Word)>,
    pub onward: Option<Point>,
}

/// A code block that comes next: its offset in the interval before anything is inserted, and where its
/// start leads.
#[derive(Clone, Copy, Debug, PartialEq, Eq)]
pub struct Ahead {
    pub offset: u64,
    pub leads: Point,
}

/// The blocks by their identifiers.
#[derive(Drop)]
pub struct Indexes {
    pub code: IndexMap<Uuid, CodeSpot>,
    pub data: IndexMap<Uuid, Spot>,
}
