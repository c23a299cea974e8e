//! The identifiers that patches derive.

ghost use Rattle.std.specs.Prelude.{◌≡◌, ◌++◌, [], ◌∷◌, map, IfOk, OnOk};
ghost use Rattle.std.specs.List.{filter_map, flat_map};
ghost use Rattle.sym_expr.specs.Points.{code_blocks, code_of};
ghost use Rattle.taken_ids.specs.Identifiers.{ids_among, part_id, part_ids};

use crate::functions::push_functions;
use crate::parts::parts_of_block;
use block_parts::Part;
use block_parts::laws::whole_blocks_are_one_part;
use derived_ids::part_id;
use std::alloc::{AllocError, Global};
use sym_expr::{CodeBlock, PatchTable, Piece, Program, Stretch};
use uuid::Uuid;

/// The identifiers of parts of a block.
fn push_parts(
    alloc: Global,
    out: &mut Vec<Uuid>,
    module: &Uuid,
    block: &Uuid,
    parts: &[Part],
) -> Result<(), AllocError>
    ensures { OnOk result (out.new.items ≡ out.old.items ++ map (part_id «module».now block.now) parts.now) }
{
    for part in parts {
        let id = part_id(alloc, module, block, part.start)?;
        out.push(id)?;
    }
    Ok(())
}

/// The identifiers of the later parts of a block.
fn push_block(
    alloc: Global,
    out: &mut Vec<Uuid>,
    module: &Uuid,
    block: &CodeBlock,
) -> Result<(), AllocError>
    ensures { OnOk result (out.new.items ≡ out.old.items ++ part_ids «module».now block.now) }
{
    whole_blocks_are_one_part();
    // Most blocks are such.
    if block.inserted.is_empty() {
        return Ok(());
    }
    let parts = parts_of_block(alloc, block)?;
    match parts.as_slice() {
        [] => Ok(()),
        [_, later @ ..] => push_parts(alloc, out, module, &block.id, later),
    }
}

/// The same of a piece, if it is a code block.
fn push_piece(
    alloc: Global,
    out: &mut Vec<Uuid>,
    module: &Uuid,
    piece: &Piece,
) -> Result<(), AllocError>
    ensures { OnOk result (out.new.items ≡ out.old.items ++ flat_map (part_ids «module».now) (filter_map code_of (piece.now ∷ []))) }
{
    match piece {
        Piece::Code(block) => push_block(alloc, out, module, block),
        Piece::Data(_) | Piece::Gap(_) => Ok(()),
    }
}

/// The same of the code blocks of an interval.
fn push_stretch(
    alloc: Global,
    out: &mut Vec<Uuid>,
    module: &Uuid,
    stretch: &Stretch,
) -> Result<(), AllocError>
    ensures { OnOk result (out.new.items ≡ out.old.items ++ flat_map (part_ids «module».now) (filter_map code_of stretch.now.pieces)) }
{
    for piece in stretch.pieces.as_slice() {
        push_piece(alloc, out, module, piece)?;
    }
    Ok(())
}

/// The same of the code blocks of a program.
fn push_program(
    alloc: Global,
    out: &mut Vec<Uuid>,
    module: &Uuid,
    program: &Program,
) -> Result<(), AllocError>
    ensures { OnOk result (out.new.items ≡ out.old.items ++ flat_map (part_ids «module».now) (code_blocks program.now)) }
{
    for stretch in program.stretches.as_slice() {
        push_stretch(alloc, out, module, stretch)?;
    }
    Ok(())
}

/// All identifiers that patches derive in a module of which this is the program.
pub(crate) fn derived_ids(
    alloc: Global,
    module: &Uuid,
    program: &Program,
    patches: &PatchTable,
) -> Result<Vec<Uuid>, AllocError>
    ensures { IfOk result (λ ids. ids.items ≡ ids_among «module».now program.now patches.now) }
{
    let mut out = Vec::new(alloc);
    push_program(alloc, &mut out, module, program)?;
    push_functions(alloc, &mut out, module, patches.functions.as_slice())?;
    Ok(out)
}
