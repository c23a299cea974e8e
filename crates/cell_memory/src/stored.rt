//! What is stored whole, where its cells are as they were stored.

ghost use Rattle.std.specs.Prelude.{◌≡◌, ◌≤◌, ◌<◌, ◌+◌, length, take, drop, replicate, ◌==◌, IfSome};
ghost use Rattle.std.specs.List.{list_all};
ghost use Rattle.cell_memory.specs.Shown.{kept_in, part_of, shown, span};
ghost use Rattle.sym_expr.specs.States.{parts_from};

use crate::cells::{Cells, MARKS};
use crate::whole::{Span, Whole};

/// Whether all are the same byte.
fn are_all(bytes: &[u8], same: u8) -> bool
    ensures { result ≡ list_all (λ byte. byte == same) bytes.now }
{
    bytes.iter().all(|byte| *byte == same)
}

/// How many cells that has of which cells with these bytes and marks are the first parts.
fn run_count(bytes: &[u8], marks: &[u8]) -> Option<u8>
    requires some { 0 < length bytes.now }
    requires most { length marks.now ≤ 8 }
    ensures bytes { IfSome result (λ count. bytes.now ≡ replicate (length bytes.now) count) }
    ensures marks { IfSome result (λ _. marks.now ≡ take (length marks.now) MARKS) }
    ensures within { IfSome result (λ count. length bytes.now ≤ count) }
{
    let count = bytes[0];
    if marks == &MARKS[..marks.len()] && bytes.len() <= count as usize && are_all(bytes, count) {
        Some(count)
    } else {
        None
    }
}

impl Cells {
    /// What was stored whole at an offset, where so many of its cells are still there.
    #[inline(always)]
    pub fn run(&self, at: u64, count: u8) -> Option<Whole>
        requires some { 0 < count }
        requires most { count ≤ 8 }
        requires inside { at + count ≤ length (shown self.now) }
        ensures { IfSome result (λ whole. take count (drop at (shown self.now)) ≡ parts_from count 0 (part_of whole)) }
    {
        let start = at as usize;
        let end = start + count as usize;
        match run_count(&self.bytes[start..end], &self.marks[start..end]) {
            Some(all) => self.kept(at, all),
            None => None,
        }
    }

    /// What is kept for an offset and a number of cells.
    fn kept(&self, start: u64, count: u8) -> Option<Whole>
        ensures { result ≡ kept_in self.now (span start count) }
    {
        self.wholes.get(&Span { start, count }).copied()
    }
}
