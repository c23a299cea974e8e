//! Where the bytes of an interval went.

ghost use Rattle.std.specs.Prelude.{◌≡◌, ◌≤◌, ◌<◌, ℕ, length, slice_index_or, IfOk};
ghost use Rattle.std.specs.List.Sorted.{IsNonDecreasingBy};
ghost use Rattle.new_intervals.specs.Moving.{ending, IsMoves, IsTight};
ghost use Rattle.new_intervals.specs.declared.runs.Run.{Run as RunOf};
ghost use Rattle.new_intervals.specs.Placed.{placed_all};
ghost use Rattle.rewrite.specs.Offsets.{new_offset};
ghost use Rattle.sym_expr.specs.Placing.{placed, stretch_size};

use crate::runs::{Run, runs_of};
use crate::spots::Spot;
use std::alloc::{AllocError, Global};
use sym_expr::Stretch;

/// An interval, where the bytes of its pieces went, and its new end.
#[derive(Drop)]
pub(crate) struct Moves<'a> {
    pub stretch: &'a Stretch,
    pub runs: Vec<Run>,
    pub end: u64,
}

/// How many pieces end at an old offset or before it.
fn passed(runs: &[Run], at: u64) -> usize
    requires { IsNonDecreasingBy ending runs.now }
    ensures bound { result ≤ length runs.now }
    ensures front { (k : ℕ) (d : RunOf) → k < result → (slice_index_or runs.now k d).end ≤ at }
    ensures rest { (k : ℕ) (d : RunOf) → result ≤ k → k < length runs.now → at < (slice_index_or runs.now k d).end }
{
    runs.partition_point(|run| run.end <= at)
}

impl<'a> Moves<'a> {
    /// An interval with its pieces at their new offsets, and its new size.
    pub(crate) fn new(
        alloc: Global,
        stretch: &'a Stretch,
        spots: &[Spot<'_>],
        size: u64,
    ) -> Result<Moves<'a>, AllocError>
        requires placed { placed_all spots.now ≡ placed stretch.now }
        requires size { size ≡ stretch_size stretch.now }
        requires tight { IsTight stretch.now }
        ensures known { IfOk result IsMoves }
        ensures from { IfOk result (λ made. made.stretch.now ≡ stretch.now) }
    {
        let runs = runs_of(alloc, spots)?;
        Ok(Moves {
            stretch,
            runs,
            end: size,
        })
    }

    /// The new offset of a byte at an old one. What is behind all bytes goes to the new end.
    pub(crate) fn new_offset(&self, at: u64) -> u64
        requires { IsMoves self.now }
        ensures { result ≡ new_offset self.now.stretch.now at }
    {
        let k = passed(self.runs.as_slice(), at);
        if k < self.runs.len() {
            self.runs[k].new_place(at)
        } else {
            self.end
        }
    }
}
