//! What is kept of the blocks and intervals of a program, by their identifiers.

ghost use Rattle.std.specs.Prelude.{◌≡◌, ◌<◌, ◌^◌, ℕ, List, [], ◌∷◌, IfOk, OnOk};
ghost use Rattle.std.specs.List.{AllByRecursion, filter_map};
ghost use Rattle.std.specs.Option.{option_or};
ghost use Rattle.moved_places.specs.Kept.{block_among, interval_among, kept_block, kept_interval};
ghost use Rattle.sym_expr.specs.declared.program.Stretch.{Stretch as StretchOf};
ghost use Rattle.sym_expr.specs.Placing.{stretch_size};
ghost use Rattle.sym_expr.specs.Points.{code_blocks, code_of};

use crate::blocks::block_moves;
use crate::interval::IntervalMoves;
use crate::intervals::interval_moves;
use crate::kept::BlockMoves;
use crate::sizes::add_first;
use gt_model::Module;
use indexmap::IndexMap;
use std::alloc::{AllocError, Global};
use sym_expr::{CodeBlock, Piece, Program, Stretch};
use uuid::Uuid;

/// Keeps a code block, unless one of its identifier is kept.
fn add_block(
    alloc: Global,
    blocks: &mut IndexMap<Uuid, BlockMoves>,
    module: &Module,
    block: &CodeBlock,
) -> Result<(), AllocError>
    ensures { OnOk result ((q : List ℕ) → kept_block blocks.new q ≡ option_or (kept_block blocks.old q) (block_among «module».now (block.now ∷ []) q)) }
{
    let moves = block_moves(alloc, module, block)?;
    add_first(blocks, &block.id, moves)
}

/// Keeps a piece, if it is a code block.
fn add_piece(
    alloc: Global,
    blocks: &mut IndexMap<Uuid, BlockMoves>,
    module: &Module,
    piece: &Piece,
) -> Result<(), AllocError>
    ensures { OnOk result ((q : List ℕ) → kept_block blocks.new q ≡ option_or (kept_block blocks.old q) (block_among «module».now (filter_map code_of (piece.now ∷ [])) q)) }
{
    match piece {
        Piece::Code(block) => add_block(alloc, blocks, module, block),
        Piece::Data(_) | Piece::Gap(_) => Ok(()),
    }
}

/// Keeps the code blocks of an interval.
fn add_stretch(
    alloc: Global,
    blocks: &mut IndexMap<Uuid, BlockMoves>,
    module: &Module,
    stretch: &Stretch,
) -> Result<(), AllocError>
    ensures { OnOk result ((q : List ℕ) → kept_block blocks.new q ≡ option_or (kept_block blocks.old q) (block_among «module».now (filter_map code_of stretch.now.pieces) q)) }
{
    for piece in stretch.pieces.as_slice() {
        add_piece(alloc, blocks, module, piece)?;
    }
    Ok(())
}

/// The code blocks of a program.
pub fn index_blocks(
    alloc: Global,
    module: &Module,
    program: &Program,
) -> Result<IndexMap<Uuid, BlockMoves>, AllocError>
    ensures { IfOk result (λ blocks. (q : List ℕ) → kept_block blocks q ≡ block_among «module».now (code_blocks program.now) q) }
{
    let mut blocks = IndexMap::new(alloc);
    for stretch in program.stretches.as_slice() {
        add_stretch(alloc, &mut blocks, module, stretch)?;
    }
    Ok(blocks)
}

/// Keeps an interval, unless one of its identifier is kept.
fn add_interval(
    alloc: Global,
    intervals: &mut IndexMap<Uuid, IntervalMoves>,
    stretch: &Stretch,
) -> Result<(), AllocError>
    requires { stretch_size stretch.now < 2 ^ 62 }
    ensures { OnOk result ((q : List ℕ) → kept_interval intervals.new q ≡ option_or (kept_interval intervals.old q) (interval_among (stretch.now ∷ []) q)) }
{
    let moves = interval_moves(alloc, stretch)?;
    add_first(intervals, &stretch.id, moves)
}

/// The intervals of a program.
pub fn index_intervals(
    alloc: Global,
    program: &Program,
) -> Result<IndexMap<Uuid, IntervalMoves>, AllocError>
    requires { AllByRecursion (λ (s : StretchOf). stretch_size s < 2 ^ 62) program.now.stretches }
    ensures { IfOk result (λ intervals. (q : List ℕ) → kept_interval intervals q ≡ interval_among program.now.stretches q) }
{
    let mut intervals = IndexMap::new(alloc);
    for stretch in program.stretches.as_slice() {
        add_interval(alloc, &mut intervals, stretch)?;
    }
    Ok(intervals)
}
