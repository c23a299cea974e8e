//! The pieces of an interval at their new offsets.

ghost use Rattle.std.specs.Prelude.{◌≡◌, ◌<◌, ◌^◌, ℕ, List, find, if◌then◌else◌, Some, IfOk, OnOk};
ghost use Rattle.std.specs.Option.{option_copied, option_map};
ghost use Rattle.std.specs.Str.{bytes_eq};
ghost use Rattle.indexmap.specs.IndexMap.{get};
ghost use Rattle.new_intervals.specs.Placed.{block_at, placed_all, placed_of, spot_at};
ghost use Rattle.sym_expr.specs.Images.{is_block};
ghost use Rattle.sym_expr.specs.Placing.{placed, stretch_size};

use indexmap::IndexMap;
use layout_plan::{new_size, placed_at};
use std::alloc::{AllocError, Global};
use sym_expr::{Piece, Stretch};
use uuid::Uuid;

/// A piece at its new offset.
#[derive(Clone, Copy, Drop)]
pub(crate) struct Spot<'a> {
    pub at: u64,
    pub piece: &'a Piece,
}

/// The pieces of an interval, one behind the other, and its new size.
#[derive(Drop)]
pub(crate) struct Laid<'a> {
    pub spots: Vec<Spot<'a>>,
    pub size: u64,
}

impl<'a> Laid<'a> {
    pub(crate) fn new(alloc: Global, stretch: &'a Stretch) -> Result<Laid<'a>, AllocError>
        requires { stretch_size stretch.now < 2 ^ 62 }
        ensures spots { IfOk result (λ laid. placed_all laid.spots.items ≡ placed stretch.now) }
        ensures size { IfOk result (λ laid. laid.size ≡ stretch_size stretch.now) }
    {
        let mut spots = Vec::new(alloc);
        let mut end = 0;
        for piece in stretch.pieces.as_slice() {
            let at = placed_at(end, piece);
            spots.push(Spot { at, piece })?;
            end = at + new_size(piece);
        }
        Ok(Laid { spots, size: end })
    }
}

/// The identifier of a block.
fn block_id(piece: &Piece) -> Option<Uuid>
    ensures { (id : List ℕ) → is_block id piece.now ≡ block_at result id }
{
    match piece {
        Piece::Code(block) => Some(block.id),
        Piece::Data(block) => Some(block.id),
        Piece::Gap(_) => None,
    }
}

/// Keeps the position of a block, in place of that of one of its identifier.
fn add_spot(
    index: &mut IndexMap<Uuid, usize>,
    position: usize,
    piece: &Piece,
) -> Result<(), AllocError>
    ensures { OnOk result ((id : List ℕ) → get bytes_eq index.new id ≡ (if is_block id piece.now then Some position else get bytes_eq index.old id)) }
{
    if let Some(id) = block_id(piece) {
        index.insert(id, position)?;
    }
    Ok(())
}

/// The positions of the blocks by their identifiers. They are put in from the last on, so that the first of an
/// identifier counts.
pub(crate) fn index_of(
    alloc: Global,
    spots: &[Spot<'_>],
) -> Result<IndexMap<Uuid, usize>, AllocError>
    ensures { IfOk result (λ index. (id : List ℕ) → spot_at spots.now (get bytes_eq index) id ≡ find (λ x. is_block id x.piece) (placed_all spots.now)) }
{
    let mut index = IndexMap::new(alloc);
    let mut left = spots.len();
    while left > 0 {
        left -= 1;
        add_spot(&mut index, left, spots[left].piece)?;
    }
    Ok(index)
}

/// The block of an identifier.
pub(crate) fn spot_of<'b, 'a>(
    spots: &'b [Spot<'a>],
    index: &IndexMap<Uuid, usize>,
    id: &Uuid,
) -> Option<&'b Spot<'a>>
    ensures { option_map placed_of (option_copied result) ≡ spot_at spots.now (get bytes_eq index.now) id.now }
{
    match index.get(id) {
        Some(position) => spots.get(*position),
        None => None,
    }
}
