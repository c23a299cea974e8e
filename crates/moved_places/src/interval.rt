ghost use Rattle.std.specs.List.Sorted.{IsNonDecreasingBy};
ghost use Rattle.moved_places.specs.declared.kept.PieceMoves.{PieceMoves as PieceMovesOf};

use crate::kept::PieceMoves;
use gr_base::Seq;

/// Where the pieces of an interval go, one behind the other, and where its end does.
#[derive(Debug, Drop)]
pub struct IntervalMoves {
    pub pieces: Seq<PieceMoves>,
    pub end: u64,
    ghost ascend: { IsNonDecreasingBy (λ (p : PieceMovesOf). p.until) pieces },
}
