//! What is kept of a code block, of a piece of an interval, and of an interval.

ghost use Rattle.std.specs.Prelude.{◌≡◌, ◌<◌, ◌+◌, ◌-◌, ◌*◌, ◌^◌, ℕ, length, slice_get, Some};
ghost use Rattle.std.specs.List.Sorted.{IsNonDecreasing};
ghost use Rattle.aux_codec.specs.declared.value.Place.{Place as PlaceOf};

use aux_codec::Place;
use gr_base::Seq;

/// Where a code block's own words go, in order, and its end.
#[derive(Debug, Drop)]
pub struct BlockMoves {
    pub words: Seq<Place>,
    pub end: Place,
    ghost near: { (k : ℕ) (w : PlaceOf) → slice_get words k ≡ Some w → w.offset < 2 ^ 62 },
}

/// The bytes of an interval from one offset until another: where they begin now, and the offsets of the words that are
/// inserted among them, in order.
#[derive(Debug, Drop)]
pub struct PieceMoves {
    pub from: u64,
    pub until: u64,
    pub at: u64,
    pub inserted: Seq<u64>,
    ghost sorted: { IsNonDecreasing inserted },
    ghost near: { at + ((until - from) + 4 * length inserted) < 2 ^ 63 },
}
