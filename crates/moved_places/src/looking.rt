//! Where an offset goes by what is kept.

ghost use Rattle.std.specs.Prelude.{◌≡◌, ◌<◌, find, nat_lt};
ghost use Rattle.std.specs.Option.{option_copied};
ghost use Rattle.moved_places.specs.declared.kept.PieceMoves.{PieceMoves as PieceMovesOf};
ghost use Rattle.moved_places.specs.Blocks.{place_kept};
ghost use Rattle.moved_places.specs.Intervals.{offset_in, offset_kept};

use crate::interval::IntervalMoves;
use crate::kept::{BlockMoves, PieceMoves};
use aux_codec::Place;

/// Where an offset in a code block goes, if it is one up to its end.
pub fn place_in_block(block: &BlockMoves, offset: u64) -> Option<Place>
    ensures { result ≡ place_kept block.now offset }
{
    if offset == 4 * block.words.as_slice().len() as u64 {
        return Some(block.end);
    }
    let word = block.words.get((offset / 4) as usize).copied()?;
    Some(Place {
        id: word.id,
        offset: word.offset + offset % 4,
    })
}

/// Where an offset in a piece goes.
fn offset_in(piece: &PieceMoves, offset: u64) -> u64
    requires { offset < piece.now.until }
    ensures { result ≡ offset_in offset piece.now }
{
    let depth = offset.saturating_sub(piece.from);
    let next = depth + 1;
    let inserted = piece.inserted.as_slice().partition_point(|at| *at < next) as u64;
    piece.at + (depth + 4 * inserted)
}

/// The first piece that ends behind an offset.
fn piece_at(interval: &IntervalMoves, offset: u64) -> Option<&PieceMoves>
    ensures { option_copied result ≡ find (λ (p : PieceMovesOf). nat_lt offset p.until) interval.now.pieces }
{
    let pieces = interval.pieces.as_slice();
    let index = pieces.partition_point(|piece| piece.until <= offset);
    interval.pieces.get(index)
}

/// Where an offset in an interval goes.
pub fn offset_in_interval(interval: &IntervalMoves, offset: u64) -> u64
    ensures { result ≡ offset_kept interval.now offset }
{
    match piece_at(interval, offset) {
        Some(piece) => offset_in(piece, offset),
        None => interval.end,
    }
}
