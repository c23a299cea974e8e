//! The making of the indexes: each interval from its last piece to its first, so that it is known where
//! the end of a code block leads when the block is kept.

ghost use Rattle.std.specs.Prelude.{◌≡◌, ◌<◌, ◌^◌, ℕ, suc, List, ◌∷◌, drop, map, slice_get, Some, IfOk, OnOk, Option as OptionOf, if◌then◌else◌};
ghost use Rattle.std.specs.List.{AllByRecursion};
ghost use Rattle.std.specs.Option.{option_map, unwrap_or};
ghost use Rattle.sym_expr.specs.declared.program.CodeBlock.{CodeBlock as CodeBlockOf};
ghost use Rattle.sym_expr.specs.declared.program.Piece.{Piece as PieceOf};
ghost use Rattle.sym_expr.specs.declared.program.Piece.TheVariants.{Code as CodePiece, Data as DataPiece};
ghost use Rattle.sym_expr.specs.declared.program.Program.{Program as ProgramOf};
ghost use Rattle.sym_expr.specs.declared.program.Stretch.{Stretch as StretchOf};
ghost use Rattle.sym_expr.specs.Placing.{new_size, placed, stretch_size};
ghost use Rattle.sym_expr.specs.Points.{code_size, first_code, is_passed, reached};
ghost use Rattle.sym_expr.specs.Targets.{start_of};
ghost use Rattle.sym_expr.specs.WellMade.{well_made};
ghost use Rattle.indexed_program.specs.declared.spot.Ahead.{Ahead as AheadOf};
ghost use Rattle.indexed_program.specs.Building.{adjacent, IsAhead, StandsAt};
ghost use Rattle.indexed_program.specs.Kept.{IsByOffset, IsIndexed, IsKept, IsRight};

use crate::code::is_passed;
use crate::inserted::by_offset;
use crate::spot::{Ahead, CodeSpot, Indexes, Spot};
use indexmap::IndexMap;
use layout_plan::{new_size, placed_at};
use std::alloc::{AllocError, Global};
use sym_expr::{CodeBlock, DataBlock, Piece, Point, Program, Stretch};

/// The offsets of the pieces of an interval, once words are inserted.
fn new_offsets(alloc: Global, stretch: &Stretch) -> Result<Vec<u64>, AllocError>
    requires { stretch_size stretch.now < 2 ^ 62 }
    ensures { IfOk result (λ offsets. offsets.items ≡ map (λ x. x.at) (placed stretch.now)) }
{
    let mut offsets = Vec::new(alloc);
    let mut end = 0;
    for piece in stretch.pieces.as_slice() {
        let at = placed_at(end, piece);
        offsets.push(at)?;
        end = at + new_size(piece);
    }
    Ok(offsets)
}

/// Where the end of a block goes on: the block ahead begins there, or nothing does.
fn onward_of(block: &CodeBlock, ahead: Option<Ahead>) -> Option<Point>
    requires { code_size block.now < 2 ^ 62 }
    ensures { (g : ProgramOf) (next : OptionOf CodeBlockOf) → IsAhead g next ahead → result ≡ option_map (λ c. reached g (start_of c.id)) (adjacent block.now next) }
{
    let next = ahead?;
    let size = 4 * block.own.len() as u64;
    if next.offset >= block.offset && next.offset - block.offset == size {
        Some(next.leads)
    } else {
        None
    }
}

/// What is kept of a code block whose end is known to go on so.
fn code_spot(
    alloc: Global,
    spot: Spot,
    at: u64,
    block: &CodeBlock,
    onward: Option<Point>,
) -> Result<CodeSpot, AllocError>
    ensures place { IfOk result (λ kept. (kept.spot ≡ spot) × (kept.at ≡ at) × (kept.onward ≡ onward)) }
    ensures inserted { IfOk result (λ kept. IsByOffset kept.inserted block.now.inserted) }
{
    let inserted = by_offset(alloc, block.inserted.as_slice())?;
    Ok(CodeSpot {
        spot,
        at,
        inserted,
        onward,
    })
}

/// Where the start of a block leads.
fn lead_of(block: &CodeBlock, kept: &CodeSpot) -> Point
    requires size { code_size block.now < 2 ^ 62 }
    requires inserted { IsByOffset kept.now.inserted block.now.inserted }
    ensures { result ≡ (if is_passed block.now (start_of block.now.id) then unwrap_or kept.now.onward (start_of block.now.id) else start_of block.now.id) }
{
    let start = Point {
        block: block.id,
        offset: 0,
        j: 0,
    };
    if is_passed(block, kept.inserted.as_slice(), &start) {
        kept.onward.unwrap_or(start)
    } else {
        start
    }
}

/// Keeps a code block, and tells of it as what comes next.
fn add_code(
    alloc: Global,
    indexes: &mut Indexes,
    spot: Spot,
    at: u64,
    block: &CodeBlock,
    ahead: Option<Ahead>,
) -> Result<Ahead, AllocError>
    requires { code_size block.now < 2 ^ 62 }
    ensures right { OnOk result ((g : ProgramOf) (s : StretchOf) → StandsAt g s spot at (CodePiece block.now) ahead → IsRight g indexes.old → IsRight g indexes.new) }
    ensures keeps { OnOk result ((p : PieceOf) → IsKept indexes.old p → IsKept indexes.new p) }
    ensures kept { OnOk result (IsKept indexes.new (CodePiece block.now)) }
    ensures next { IfOk result (λ next. (g : ProgramOf) (s : StretchOf) → StandsAt g s spot at (CodePiece block.now) ahead → IsAhead g (Some block.now) (Some next)) }
{
    let kept = code_spot(alloc, spot, at, block, onward_of(block, ahead))?;
    let leads = lead_of(block, &kept);
    indexes.code.insert(block.id, kept)?;
    Ok(Ahead {
        offset: block.offset,
        leads,
    })
}

/// Keeps a data block.
fn add_data(indexes: &mut Indexes, spot: Spot, block: &DataBlock) -> Result<(), AllocError>
    ensures right { OnOk result ((g : ProgramOf) (s : StretchOf) (at : ℕ) (ahead : OptionOf AheadOf) → StandsAt g s spot at (DataPiece block.now) ahead → IsRight g indexes.old → IsRight g indexes.new) }
    ensures keeps { OnOk result ((p : PieceOf) → IsKept indexes.old p → IsKept indexes.new p) }
    ensures kept { OnOk result (IsKept indexes.new (DataPiece block.now)) }
{
    indexes.data.insert(block.id, spot)?;
    Ok(())
}

/// What comes next in front of a data block: behind one with bytes nothing does.
fn past_data(block: &DataBlock, ahead: Option<Ahead>) -> Option<Ahead>
    ensures { (g : ProgramOf) (rest : List PieceOf) → IsAhead g (first_code rest) ahead → IsAhead g (first_code (DataPiece block.now ∷ rest)) result }
{
    if block.bytes.is_empty() { ahead } else { None }
}

/// Keeps a piece, if it is a block, and tells what code block comes next from it on.
fn add_piece(
    alloc: Global,
    indexes: &mut Indexes,
    spot: Spot,
    at: u64,
    piece: &Piece,
    ahead: Option<Ahead>,
) -> Result<Option<Ahead>, AllocError>
    requires { new_size piece.now < 2 ^ 62 }
    ensures right { OnOk result ((g : ProgramOf) (s : StretchOf) → StandsAt g s spot at piece.now ahead → IsRight g indexes.old → IsRight g indexes.new) }
    ensures keeps { OnOk result ((p : PieceOf) → IsKept indexes.old p → IsKept indexes.new p) }
    ensures kept { OnOk result (IsKept indexes.new piece.now) }
    ensures next { IfOk result (λ next. (g : ProgramOf) (s : StretchOf) → StandsAt g s spot at piece.now ahead → IsAhead g (first_code (piece.now ∷ drop (suc spot.piece) s.pieces)) next) }
{
    match piece {
        Piece::Code(block) => Ok(Some(add_code(alloc, indexes, spot, at, block, ahead)?)),
        Piece::Data(block) => {
            add_data(indexes, spot, block)?;
            Ok(past_data(block, ahead))
        }
        Piece::Gap(_) => Ok(ahead),
    }
}

/// Keeps the blocks of the interval of a number.
fn add_stretch(
    alloc: Global,
    indexes: &mut Indexes,
    number: usize,
    stretch: &Stretch,
) -> Result<(), AllocError>
    requires { stretch_size stretch.now < 2 ^ 62 }
    ensures right { OnOk result ((g : ProgramOf) → well_made g → slice_get g.stretches number ≡ Some stretch.now → IsRight g indexes.old → IsRight g indexes.new) }
    ensures keeps { OnOk result ((p : PieceOf) → IsKept indexes.old p → IsKept indexes.new p) }
    ensures kept { OnOk result (AllByRecursion (IsKept indexes.new) stretch.now.pieces) }
{
    let offsets = new_offsets(alloc, stretch)?;
    let pieces = stretch.pieces.as_slice();
    let mut ahead = None;
    let mut left = pieces.len();
    while left > 0 {
        left -= 1;
        let spot = Spot {
            stretch: number,
            piece: left,
        };
        ahead = add_piece(alloc, indexes, spot, offsets[left], &pieces[left], ahead)?;
    }
    Ok(())
}

/// Keeps the blocks of a program.
pub fn index_program(alloc: Global, program: &Program) -> Result<Indexes, AllocError>
    requires { well_made program.now }
    ensures { IfOk result (λ indexes. IsIndexed program.now indexes) }
{
    let mut indexes = Indexes {
        code: IndexMap::new(alloc),
        data: IndexMap::new(alloc),
    };
    for (number, stretch) in program.stretches.as_slice().iter().enumerate() {
        add_stretch(alloc, &mut indexes, number, stretch)?;
    }
    Ok(indexes)
}
