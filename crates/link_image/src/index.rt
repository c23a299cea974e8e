//! Where the intervals and the blocks of a program lie, by their identifiers.

ghost use Rattle.std.specs.Prelude.{◌≡◌, ◌≤◌, ◌+◌, ◌^◌, ◌++◌, ℕ, List, [], ◌∷◌, filter, length, nat_lt, unwrap_or, Some, None, IfOk, OnOk, if◌then◌else◌};
ghost use Rattle.std.specs.Option.{option_or};
ghost use Rattle.std.specs.List.Sorted.{IsNonDecreasing};
ghost use Rattle.std.specs.Str.{bytes_eq};
ghost use Rattle.indexmap.specs.IndexMap.{get};
ghost use Rattle.sym_expr.specs.declared.program.Word.{Word as WordOf};
ghost use Rattle.sym_expr.specs.Layouts.{accepted, place_in};
ghost use Rattle.sym_expr.specs.Placing.{Placed, placed, shape_of, stretch_size};
ghost use Rattle.sym_expr.specs.WellMade.{well_made};
ghost use Rattle.link_image.specs.Counts.{count_below};
ghost use Rattle.link_image.specs.Ready.{all_addressed, shifted, IsReady, KeepsAll};

use crate::blocks::BlockAt;
use crate::linker::Linker;
use gr_base::Seq;
use indexmap::IndexMap;
use layout_plan::{new_size, placed_at};
use std::alloc::{AllocError, Global};
use sym_expr::{Layout, Piece, PlaceAt, Program, Stretch, Word};
use uuid::Uuid;

/// The address of each interval. Places are put in from the last on, so that the first of an interval
/// counts.
fn index_places(alloc: Global, places: &[PlaceAt]) -> Result<IndexMap<Uuid, u64>, AllocError>
    ensures { IfOk result (λ index. (id : List ℕ) → get bytes_eq index id ≡ place_in places.now id) }
{
    let mut index = IndexMap::new(alloc);
    let mut left = places.len();
    while left > 0 {
        left -= 1;
        let place = places[left];
        index.insert(place.interval, place.at)?;
    }
    Ok(index)
}

/// The offsets of inserted words, in order.
fn sorted_offsets(alloc: Global, inserted: &[(u64, Word)]) -> Result<Seq<u64>, AllocError>
    ensures sorted { IfOk result (λ offsets. IsNonDecreasing offsets) }
    ensures counts { IfOk result (λ offsets. (bound : ℕ) → count_below bound offsets ≡ length (filter (λ (w : ℕ × WordOf). nat_lt w.0 bound) inserted.now)) }
{
    let mut offsets = Vec::new(alloc);
    for (offset, _) in inserted {
        offsets.push(*offset)?;
    }
    offsets.sort()?;
    Ok(Seq::from_vec(offsets))
}

/// Keeps a block, unless one of its identifier is kept.
fn add_block(
    blocks: &mut IndexMap<Uuid, BlockAt>,
    id: &Uuid,
    block: BlockAt,
) -> Result<(), AllocError>
    ensures { OnOk result ((q : List ℕ) → get bytes_eq blocks.new q ≡ option_or (get bytes_eq blocks.old q) (if bytes_eq id.now q then Some block else None)) }
{
    if blocks.contains_key(id) {
        return Ok(());
    }
    blocks.insert(*id, block)?;
    Ok(())
}

/// Keeps a piece that lies at an address, if it is a block.
fn add_piece(
    alloc: Global,
    blocks: &mut IndexMap<Uuid, BlockAt>,
    at: u64,
    piece: &Piece,
) -> Result<(), AllocError>
    ensures { OnOk result ((before : List Placed) → KeepsAll before (get bytes_eq blocks.old) → KeepsAll (before ++ record { at = at; piece = piece.now } ∷ []) (get bytes_eq blocks.new)) }
{
    match piece {
        Piece::Code(block) => {
            let inserted = sorted_offsets(alloc, block.inserted.as_slice())?;
            add_block(blocks, &block.id, BlockAt { at, inserted })
        }
        Piece::Data(block) => {
            let inserted = Seq::new(alloc);
            add_block(blocks, &block.id, BlockAt { at, inserted })
        }
        Piece::Gap(_) => Ok(()),
    }
}

/// Keeps the blocks of an interval that lies at a start.
fn add_stretch(
    alloc: Global,
    blocks: &mut IndexMap<Uuid, BlockAt>,
    start: u64,
    stretch: &Stretch,
) -> Result<(), AllocError>
    requires { start + stretch_size stretch.now ≤ 2 ^ 47 }
    ensures { OnOk result ((before : List Placed) → KeepsAll before (get bytes_eq blocks.old) → KeepsAll (before ++ shifted start (placed stretch.now)) (get bytes_eq blocks.new)) }
{
    let mut end = 0;
    for piece in stretch.pieces.as_slice() {
        let at = placed_at(end, piece);
        add_piece(alloc, blocks, start + at, piece)?;
        end = at + new_size(piece);
    }
    Ok(())
}

/// The address of an interval.
fn place_of(places: &IndexMap<Uuid, u64>, id: &Uuid) -> u64
    ensures { result ≡ unwrap_or (get bytes_eq places.now id.now) 0 }
{
    places.get(id).copied().unwrap_or(0)
}

/// The blocks of a program.
fn index_blocks(
    alloc: Global,
    places: &IndexMap<Uuid, u64>,
    program: &Program,
    layout: &Layout,
) -> Result<IndexMap<Uuid, BlockAt>, AllocError>
    requires places { (id : List ℕ) → get bytes_eq places.now id ≡ place_in layout.now.places id }
    requires accepted { accepted layout.now (shape_of program.now) }
    ensures { IfOk result (λ blocks. KeepsAll (all_addressed layout.now program.now) (get bytes_eq blocks)) }
{
    let mut blocks = IndexMap::new(alloc);
    for stretch in program.stretches.as_slice() {
        add_stretch(alloc, &mut blocks, place_of(places, &stretch.id), stretch)?;
    }
    Ok(blocks)
}

impl<'a> Linker<'a> {
    pub fn new(
        alloc: Global,
        program: &'a Program,
        layout: &'a Layout,
    ) -> Result<Linker<'a>, AllocError>
        requires well { well_made program.now }
        requires accepted { accepted layout.now (shape_of program.now) }
        ensures ready { IfOk result IsReady }
        ensures program { IfOk result (λ linker. linker.program.now ≡ program.now) }
        ensures layout { IfOk result (λ linker. linker.layout.now ≡ layout.now) }
    {
        let places = index_places(alloc, layout.places.as_slice())?;
        let blocks = index_blocks(alloc, &places, program, layout)?;
        Ok(Linker {
            program,
            layout,
            places,
            blocks,
        })
    }
}
