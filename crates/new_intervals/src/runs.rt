//! Where the bytes of each piece of an interval went.

ghost use Rattle.std.specs.Prelude.{◌≡◌, ◌≤◌, ◌<◌, ◌+◌, ◌-◌, ◌*◌, ◌^◌, ℕ, filter, length, nat_lt, IfOk};
ghost use Rattle.std.specs.List.Sorted.{IsNonDecreasing};
ghost use Rattle.new_intervals.specs.Moving.{count_below, old_sizes, words_in, AreRuns, GoesDeep};
ghost use Rattle.new_intervals.specs.Placed.{placed_all, AreRoomy};
ghost use Rattle.rewrite.specs.Offsets.{old_size};
ghost use Rattle.sym_expr.specs.Placing.{new_size};
ghost use Rattle.sym_expr.specs.declared.program.Word.{Word as WordOf};

use crate::spots::Spot;
use gr_base::Seq;
use std::alloc::{AllocError, Global};
use sym_expr::{Piece, Word};

/// Where the bytes of a piece were and went: its old start and end, its new start, and the offsets in it of the
/// words that are inserted, in order.
#[derive(Drop)]
pub(crate) struct Run {
    pub from: u64,
    pub end: u64,
    pub at: u64,
    pub inserted: Seq<u64>,
}

/// The size of a piece before anything is inserted.
fn old_size(piece: &Piece) -> u64
    requires { new_size piece.now < 2 ^ 62 }
    ensures { result ≡ old_size piece.now }
{
    match piece {
        Piece::Code(block) => 4 * block.own.len() as u64,
        Piece::Data(block) => block.bytes.len() as u64,
        Piece::Gap(bytes) => bytes.len() as u64,
    }
}

/// The offsets of inserted words, in order.
fn sorted_offsets(alloc: Global, inserted: &[(u64, Word)]) -> Result<Seq<u64>, AllocError>
    ensures sorted { IfOk result (λ offsets. IsNonDecreasing offsets) }
    ensures counts { IfOk result (λ offsets. (bound : ℕ) → count_below bound offsets ≡ length (filter (λ (w : ℕ × WordOf). nat_lt w.0 bound) inserted.now)) }
{
    let mut offsets = Vec::new(alloc);
    for (offset, _) in inserted {
        offsets.push(*offset)?;
    }
    offsets.sort()?;
    Ok(Seq::from_vec(offsets))
}

/// The words that are inserted in a piece.
fn inserted_words(piece: &Piece) -> &[(u64, Word)]
    ensures { result.now ≡ words_in piece.now }
{
    match piece {
        Piece::Code(block) => block.inserted.as_slice(),
        Piece::Data(_) | Piece::Gap(_) => &[],
    }
}

/// Their offsets in order.
fn inserted_in(alloc: Global, piece: &Piece) -> Result<Seq<u64>, AllocError>
    ensures { IfOk result (λ offsets. GoesDeep piece.now offsets) }
{
    let words = inserted_words(piece);
    let offsets = sorted_offsets(alloc, words)?;
    Ok(offsets)
}

/// The run of each piece.
pub(crate) fn runs_of(alloc: Global, spots: &[Spot<'_>]) -> Result<Vec<Run>, AllocError>
    requires roomy { AreRoomy (placed_all spots.now) }
    requires small { old_sizes (placed_all spots.now) < 2 ^ 62 }
    ensures { IfOk result (λ runs. AreRuns 0 runs.items (placed_all spots.now)) }
{
    let mut runs = Vec::new(alloc);
    let mut from = 0;
    for spot in spots {
        let inserted = inserted_in(alloc, spot.piece)?;
        let end = from + old_size(spot.piece);
        runs.push(Run {
            from,
            end,
            at: spot.at,
            inserted,
        })?;
        from = end;
    }
    Ok(runs)
}

/// How many offsets in order are up to one.
fn count_up_to(offsets: &[u64], depth: u64) -> u64
    requires { IsNonDecreasing offsets.now }
    ensures { result ≡ count_below (depth + 1) offsets.now }
{
    offsets.partition_point(|offset| *offset <= depth) as u64
}

impl Run {
    /// The new offset of a byte of the piece at an old one.
    pub(crate) fn new_place(&self, at: u64) -> u64
        requires behind { self.now.from ≤ at }
        requires sorted { IsNonDecreasing self.now.inserted }
        requires room { self.now.at + (at + 4 * count_below (at - self.now.from + 1) self.now.inserted) < 2 ^ 64 + self.now.from }
        ensures { result ≡ self.now.at + (at - self.now.from + 4 * count_below (at - self.now.from + 1) self.now.inserted) }
    {
        let depth = at - self.from;
        let words = count_up_to(self.inserted.as_slice(), depth);
        self.at + (depth + 4 * words)
    }
}
