//! The parts at which code blocks end.

ghost use Rattle.std.specs.Prelude.{◌≡◌, ◌++◌, ◌∷◌, [], ℕ, List, map, IfOk, OnOk};
ghost use Rattle.std.specs.List.{filter_map};
ghost use Rattle.std.specs.Option.{option_map};
ghost use Rattle.std.specs.Str.{bytes_eq};
ghost use Rattle.indexmap.specs.IndexMap.{get};
ghost use Rattle.new_symbols.specs.Entries.{last_entry};
ghost use Rattle.rewrite.specs.Identifiers.{part_id};
ghost use Rattle.rewrite.specs.Symbols.{last_id};
ghost use Rattle.sym_expr.specs.Points.{code_at, code_blocks, code_of};

use crate::index::index_of;
use block_parts::Part;
use block_parts::laws::whole_blocks_are_one_part;
use derived_ids::part_id;
use gt_model::Module;
use indexmap::IndexMap;
use std::alloc::{AllocError, Global};
use sym_expr::{CodeBlock, Piece, Program, Stretch};
use taken_ids::parts_of_block;
use uuid::Uuid;

/// The identifier of a part of a block, whose first part keeps the block's.
pub fn id_of_part(
    alloc: Global,
    module: &Module,
    block: &Uuid,
    part: &Part,
) -> Result<Uuid, AllocError>
    ensures { IfOk result (λ id. id ≡ part_id «module».now block.now part.now) }
{
    if part.start == 0 {
        return Ok(*block);
    }
    part_id(alloc, &module.uuid, block, part.start)
}

/// The identifier of the last part of a block.
fn last_id(alloc: Global, module: &Module, block: &CodeBlock) -> Result<Uuid, AllocError>
    ensures { IfOk result (λ id. id ≡ last_id «module».now block.now) }
{
    whole_blocks_are_one_part();
    // Most blocks are such.
    if block.inserted.is_empty() {
        return Ok(block.id);
    }
    let parts = parts_of_block(alloc, block)?;
    let listed = parts.as_slice();
    match listed.last() {
        Some(part) => {
            let id = id_of_part(alloc, module, &block.id, part)?;
            Ok(id)
        }
        None => Ok(block.id),
    }
}

/// The entry of a piece, if it is a code block.
fn push_piece(
    alloc: Global,
    entries: &mut Vec<(Uuid, Uuid)>,
    module: &Module,
    piece: &Piece,
) -> Result<(), AllocError>
    ensures { OnOk result (entries.new.items ≡ entries.old.items ++ map (last_entry «module».now) (filter_map code_of (piece.now ∷ []))) }
{
    match piece {
        Piece::Code(block) => {
            let last = last_id(alloc, module, block)?;
            entries.push((block.id, last))?;
            Ok(())
        }
        Piece::Data(_) | Piece::Gap(_) => Ok(()),
    }
}

/// The entries of the code blocks of an interval.
fn push_stretch(
    alloc: Global,
    entries: &mut Vec<(Uuid, Uuid)>,
    module: &Module,
    stretch: &Stretch,
) -> Result<(), AllocError>
    ensures { OnOk result (entries.new.items ≡ entries.old.items ++ map (last_entry «module».now) (filter_map code_of stretch.now.pieces)) }
{
    for piece in stretch.pieces.as_slice() {
        push_piece(alloc, entries, module, piece)?;
    }
    Ok(())
}

/// The entries of all code blocks of a program.
fn entries(
    alloc: Global,
    module: &Module,
    program: &Program,
) -> Result<Vec<(Uuid, Uuid)>, AllocError>
    ensures { IfOk result (λ made. made.items ≡ map (last_entry «module».now) (code_blocks program.now)) }
{
    let mut entries = Vec::new(alloc);
    for stretch in program.stretches.as_slice() {
        push_stretch(alloc, &mut entries, module, stretch)?;
    }
    Ok(entries)
}

/// The identifier of the last part of each code block of a program.
pub(crate) fn last_parts(
    alloc: Global,
    module: &Module,
    program: &Program,
) -> Result<IndexMap<Uuid, Uuid>, AllocError>
    ensures { IfOk result (λ index. (id : List ℕ) → get bytes_eq index id ≡ option_map (last_id «module».now) (code_at program.now id)) }
{
    let entries = entries(alloc, module, program)?;
    let keyed = entries.as_slice();
    let index = index_of(alloc, keyed)?;
    Ok(index)
}
