//! The identifiers of the later parts of blocks.

ghost use Rattle.std.specs.Prelude.{◌≡◌, ◌++◌, ℕ, List, [], ◌∷◌, map, IfOk, OnOk, if◌then◌else◌, Some, None};
ghost use Rattle.std.specs.List.{filter_map};
ghost use Rattle.std.specs.Option.{option_or};
ghost use Rattle.std.specs.Str.{bytes_eq};
ghost use Rattle.edge_repair.specs.Edges.{later_parts};
ghost use Rattle.edge_repair.specs.Sets.{parts_of};
ghost use Rattle.indexmap.specs.IndexMap.{get};
ghost use Rattle.function_tables.specs.Later.{later_of, parts_among};
ghost use Rattle.rewrite.specs.Identifiers.{part_id};
ghost use Rattle.sym_expr.specs.Points.{code_blocks, code_of};

use block_parts::Part;
use block_parts::laws::whole_blocks_are_one_part;
use derived_ids::part_id;
use gr_base::Seq;
use gt_model::Module;
use indexmap::IndexMap;
use std::alloc::{AllocError, Global};
use sym_expr::{CodeBlock, Piece, Program, Stretch};
use taken_ids::parts_of_block;
use uuid::Uuid;

/// The later parts of each code block.
#[derive(Drop)]
pub struct LaterParts {
    pub parts: IndexMap<Uuid, Seq<Uuid>>,
}

fn id_of_part(alloc: Global, module: &Module, block: &Uuid, part: &Part) -> Result<Uuid, AllocError>
    ensures { IfOk result (λ id. id ≡ part_id «module».now block.now part.now) }
{
    if part.start == 0 {
        return Ok(*block);
    }
    part_id(alloc, &module.uuid, block, part.start)
}

fn ids_of_parts(
    alloc: Global,
    module: &Module,
    block: &Uuid,
    parts: &[Part],
) -> Result<Seq<Uuid>, AllocError>
    ensures { IfOk result (λ ids. ids ≡ map (part_id «module».now block.now) parts.now) }
{
    let mut ids = Vec::new(alloc);
    for part in parts {
        let id = id_of_part(alloc, module, block, part)?;
        ids.push(id)?;
    }
    Ok(Seq::from_vec(ids))
}

/// The identifiers of the later parts of a block.
fn later_parts(alloc: Global, module: &Module, block: &CodeBlock) -> Result<Seq<Uuid>, AllocError>
    ensures { IfOk result (λ ids. ids ≡ later_parts «module».now block.now) }
{
    whole_blocks_are_one_part();
    // Most blocks are such.
    if block.inserted.is_empty() {
        return Ok(Seq::new(alloc));
    }
    let parts = parts_of_block(alloc, block)?;
    match parts.as_slice() {
        [] => Ok(Seq::new(alloc)),
        [_, later @ ..] => ids_of_parts(alloc, module, &block.id, later),
    }
}

/// Keeps identifiers, unless some of the same block are kept.
fn add_first(
    parts: &mut IndexMap<Uuid, Seq<Uuid>>,
    id: &Uuid,
    ids: Seq<Uuid>,
) -> Result<(), AllocError>
    ensures { OnOk result ((q : List ℕ) → get bytes_eq parts.new q ≡ option_or (get bytes_eq parts.old q) (if bytes_eq id.now q then Some ids else None)) }
{
    if parts.contains_key(id) {
        return Ok(());
    }
    parts.insert(*id, ids)?;
    Ok(())
}

/// Keeps the later parts of a block.
fn add_block(
    alloc: Global,
    parts: &mut IndexMap<Uuid, Seq<Uuid>>,
    module: &Module,
    block: &CodeBlock,
) -> Result<(), AllocError>
    ensures { OnOk result ((q : List ℕ) → get bytes_eq parts.new q ≡ option_or (get bytes_eq parts.old q) (parts_among «module».now (block.now ∷ []) q)) }
{
    let ids = later_parts(alloc, module, block)?;
    add_first(parts, &block.id, ids)
}

/// The same of a piece, if it is a code block.
fn add_piece(
    alloc: Global,
    parts: &mut IndexMap<Uuid, Seq<Uuid>>,
    module: &Module,
    piece: &Piece,
) -> Result<(), AllocError>
    ensures { OnOk result ((q : List ℕ) → get bytes_eq parts.new q ≡ option_or (get bytes_eq parts.old q) (parts_among «module».now (filter_map code_of (piece.now ∷ [])) q)) }
{
    match piece {
        Piece::Code(block) => add_block(alloc, parts, module, block),
        Piece::Data(_) | Piece::Gap(_) => Ok(()),
    }
}

/// The same of the code blocks of an interval.
fn add_stretch(
    alloc: Global,
    parts: &mut IndexMap<Uuid, Seq<Uuid>>,
    module: &Module,
    stretch: &Stretch,
) -> Result<(), AllocError>
    ensures { OnOk result ((q : List ℕ) → get bytes_eq parts.new q ≡ option_or (get bytes_eq parts.old q) (parts_among «module».now (filter_map code_of stretch.now.pieces) q)) }
{
    for piece in stretch.pieces.as_slice() {
        add_piece(alloc, parts, module, piece)?;
    }
    Ok(())
}

/// The same of the code blocks of a program.
fn index_parts(
    alloc: Global,
    module: &Module,
    program: &Program,
) -> Result<IndexMap<Uuid, Seq<Uuid>>, AllocError>
    ensures { IfOk result (λ parts. (q : List ℕ) → get bytes_eq parts q ≡ parts_among «module».now (code_blocks program.now) q) }
{
    let mut parts = IndexMap::new(alloc);
    for stretch in program.stretches.as_slice() {
        add_stretch(alloc, &mut parts, module, stretch)?;
    }
    Ok(parts)
}

impl LaterParts {
    /// Those of a program's blocks.
    pub fn new(alloc: Global, module: &Module, program: &Program) -> Result<LaterParts, AllocError>
        ensures { IfOk result (λ later. later_of later ≡ parts_of «module».now program.now) }
    {
        let parts = index_parts(alloc, module, program)?;
        Ok(LaterParts { parts })
    }

    /// The later parts of a block, none of one that isn't split.
    pub fn of(&self, id: &Uuid) -> &[Uuid]
        ensures { result.now ≡ later_of self.now id.now }
    {
        match self.parts.get(id) {
            Some(ids) => ids.as_slice(),
            None => &[],
        }
    }
}
