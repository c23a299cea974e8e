//! The code blocks of a program, with the parts of those in which words are inserted.

ghost use Rattle.std.specs.Prelude.{◌≡◌, ◌++◌, ◌∷◌, [], map, IfOk, OnOk};
ghost use Rattle.std.specs.List.{filter_map};
ghost use Rattle.new_edges.specs.Blocks.{parts_of, patched_block};
ghost use Rattle.sym_expr.specs.Points.{code_blocks, code_of};

use block_parts::Part;
use gr_base::Seq;
use std::alloc::{AllocError, Global};
use sym_expr::{CodeBlock, Piece, Program, Stretch};
use taken_ids::parts_of_block;
use uuid::Uuid;

/// A code block: its size before anything is inserted, and its parts, none where nothing is.
#[derive(Debug, Drop)]
pub(crate) struct PatchedBlock {
    pub id: Uuid,
    pub size: u64,
    pub parts: Seq<Part>,
}

fn parts_of(alloc: Global, block: &CodeBlock) -> Result<Seq<Part>, AllocError>
    ensures { IfOk result (λ made. made ≡ parts_of block.now) }
{
    // Most blocks are such.
    if block.inserted.is_empty() {
        return Ok(Seq::new(alloc));
    }
    parts_of_block(alloc, block)
}

fn patched_block(alloc: Global, block: &CodeBlock) -> Result<PatchedBlock, AllocError>
    ensures { IfOk result (λ made. made ≡ patched_block block.now) }
{
    let own = block.own.as_slice();
    let size = 4 * own.len() as u64;
    let parts = parts_of(alloc, block)?;
    Ok(PatchedBlock {
        id: block.id,
        size,
        parts,
    })
}

/// A piece, if it is a code block.
fn push_piece(
    alloc: Global,
    blocks: &mut Vec<PatchedBlock>,
    piece: &Piece,
) -> Result<(), AllocError>
    ensures { OnOk result (blocks.new.items ≡ blocks.old.items ++ map patched_block (filter_map code_of (piece.now ∷ []))) }
{
    match piece {
        Piece::Code(block) => {
            let made = patched_block(alloc, block)?;
            blocks.push(made)?;
            Ok(())
        }
        Piece::Data(_) | Piece::Gap(_) => Ok(()),
    }
}

/// The code blocks of an interval.
fn push_stretch(
    alloc: Global,
    blocks: &mut Vec<PatchedBlock>,
    stretch: &Stretch,
) -> Result<(), AllocError>
    ensures { OnOk result (blocks.new.items ≡ blocks.old.items ++ map patched_block (filter_map code_of stretch.now.pieces)) }
{
    for piece in stretch.pieces.as_slice() {
        push_piece(alloc, blocks, piece)?;
    }
    Ok(())
}

/// The code blocks of a program, in order.
pub(crate) fn patched_blocks(
    alloc: Global,
    program: &Program,
) -> Result<Vec<PatchedBlock>, AllocError>
    ensures { IfOk result (λ blocks. blocks.items ≡ map patched_block (code_blocks program.now)) }
{
    let mut blocks = Vec::new(alloc);
    for stretch in program.stretches.as_slice() {
        push_stretch(alloc, &mut blocks, stretch)?;
    }
    Ok(blocks)
}
