//! Where the bytes of an interval go.

ghost use Rattle.std.specs.Prelude.{◌≡◌, ◌<◌, ◌≤◌, ◌+◌, ◌*◌, ◌^◌, ℕ, filter, length, nat_lt, IfOk};
ghost use Rattle.std.specs.List.Sorted.{IsNonDecreasing};
ghost use Rattle.moved_places.specs.Intervals.{count_below, depth_kept, offset_kept, IsKept};
ghost use Rattle.rewrite.specs.Offsets.{new_depth, new_offset, old_size};
ghost use Rattle.sym_expr.specs.declared.program.Word.{Word as WordOf};
ghost use Rattle.sym_expr.specs.Placing.{new_size, stretch_size};

use crate::interval::IntervalMoves;
use crate::kept::PieceMoves;
use gr_base::Seq;
use layout_plan::{new_size, placed_at};
use std::alloc::{AllocError, Global};
use sym_expr::{Piece, Stretch, Word};

/// The offsets of inserted words, in order.
fn sorted_offsets(alloc: Global, inserted: &[(u64, Word)]) -> Result<Seq<u64>, AllocError>
    ensures sorted { IfOk result IsNonDecreasing }
    ensures counts { IfOk result (λ offsets. (bound : ℕ) → count_below bound offsets ≡ length (filter (λ (w : ℕ × WordOf). nat_lt w.0 bound) inserted.now)) }
    ensures count { IfOk result (λ offsets. length offsets ≡ length inserted.now) }
{
    let mut offsets = Vec::new(alloc);
    for (offset, _) in inserted {
        offsets.push(*offset)?;
    }
    offsets.sort()?;
    Ok(Seq::from_vec(offsets))
}

/// The offsets of the words that are inserted in a piece, in order.
fn inserted_in(alloc: Global, piece: &Piece) -> Result<Seq<u64>, AllocError>
    ensures sorted { IfOk result IsNonDecreasing }
    ensures depths { IfOk result (λ offsets. (depth : ℕ) → depth_kept depth offsets ≡ new_depth depth piece.now) }
    ensures room { IfOk result (λ offsets. old_size piece.now + 4 * length offsets ≡ new_size piece.now) }
{
    match piece {
        Piece::Code(block) => sorted_offsets(alloc, block.inserted.as_slice()),
        Piece::Data(_) | Piece::Gap(_) => Ok(Seq::new(alloc)),
    }
}

/// The bytes of a piece before anything is inserted.
fn old_size(piece: &Piece) -> u64
    requires { new_size piece.now < 2 ^ 62 }
    ensures { result ≡ old_size piece.now }
{
    match piece {
        Piece::Code(block) => 4 * block.own.len() as u64,
        Piece::Data(block) => block.bytes.len() as u64,
        Piece::Gap(bytes) => bytes.len() as u64,
    }
}

/// Where the bytes of a piece go, which began at one offset, and begin at another.
fn piece_moves(alloc: Global, from: u64, at: u64, piece: &Piece) -> Result<PieceMoves, AllocError>
    requires old { from ≤ at }
    requires new { at + new_size piece.now < 2 ^ 62 }
    ensures { IfOk result (IsKept from (record { at = at; piece = piece.now })) }
{
    let until = from + old_size(piece);
    let inserted = inserted_in(alloc, piece)?;
    Ok(PieceMoves {
        from,
        until,
        at,
        inserted,
    })
}

/// Where the bytes and the end of an interval go.
pub fn interval_moves(alloc: Global, stretch: &Stretch) -> Result<IntervalMoves, AllocError>
    requires { stretch_size stretch.now < 2 ^ 62 }
    ensures { IfOk result (λ made. offset_kept made ≡ new_offset stretch.now) }
{
    let mut pieces = Vec::new(alloc);
    let mut from = 0;
    let mut end = 0;
    for piece in stretch.pieces.as_slice() {
        let at = placed_at(end, piece);
        let size = new_size(piece);
        let moves = piece_moves(alloc, from, at, piece)?;
        from = moves.until;
        end = at + size;
        pieces.push(moves)?;
    }
    Ok(IntervalMoves {
        pieces: Seq::from_vec(pieces),
        end,
    })
}
