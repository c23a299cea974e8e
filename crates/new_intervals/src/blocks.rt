//! The blocks of an interval, code blocks in their parts.

ghost use Rattle.std.specs.Prelude.{◌≡◌, ◌<◌, ◌+◌, ◌*◌, ◌^◌, ◌++◌, ℕ, List, length, map, IfOk, IfSome, OnOk};
ghost use Rattle.std.specs.List.{AllByRecursion, flat_map};
ghost use Rattle.std.specs.Str.{bytes_eq};
ghost use Rattle.block_parts.specs.Parts.{parts};
ghost use Rattle.block_parts.specs.Words.{patched_words};
ghost use Rattle.indexmap.specs.IndexMap.{get};
ghost use Rattle.new_intervals.specs.Blocks.{block_where, parts_in, parts_where, start_where, EndsAt};
ghost use Rattle.new_intervals.specs.Placed.{placed_of, spot_at, IsRoomy};
ghost use Rattle.rewrite.specs.Blocks.{part_block};
ghost use Rattle.rewrite.specs.Identifiers.{part_id};

use crate::spots::{Spot, spot_of};
use block_parts::Part;
use block_parts::laws::parts_have_all_words;
use derived_ids::part_id;
use gr_base::Seq;
use gt_model::{Block, Body, Module};
use indexmap::IndexMap;
use std::alloc::{AllocError, Global};
use sym_expr::{CodeBlock, Piece};
use taken_ids::parts_of_block;
use uuid::Uuid;

/// The identifier of a part of a block, which the first part keeps.
fn new_id(alloc: Global, module: &Module, block: &Uuid, part: &Part) -> Result<Uuid, AllocError>
    ensures { IfOk result (λ id. id ≡ part_id «module».now block.now part.now) }
{
    if part.start == 0 {
        return Ok(*block);
    }
    let id = part_id(alloc, &module.uuid, block, part.start)?;
    Ok(id)
}

/// Adds the parts of a block that begins at an offset.
fn push_parts(
    alloc: Global,
    out: &mut Vec<Block>,
    module: &Module,
    block: &Uuid,
    decode_mode: u64,
    at: u64,
    parts: &[Part],
) -> Result<(), AllocError>
    requires { AllByRecursion (EndsAt at) parts.now }
    ensures { OnOk result (out.new.items ≡ out.old.items ++ map (part_block «module».now block.now decode_mode at) parts.now) }
{
    for part in parts {
        let uuid = new_id(alloc, module, block, part)?;
        out.push(Block {
            offset: at + part.start,
            body: Body::Code {
                uuid,
                size: 4 * part.words.len() as u64,
                decode_mode,
            },
        })?;
    }
    Ok(())
}

/// Adds the parts of a code block that stands at an offset.
fn push_code(
    alloc: Global,
    out: &mut Vec<Block>,
    module: &Module,
    decode_mode: u64,
    id: &Uuid,
    at: u64,
    code: &CodeBlock,
) -> Result<(), AllocError>
    requires { at + 4 * length (patched_words code.now) < 2 ^ 63 }
    ensures { OnOk result (out.new.items ≡ out.old.items ++ map (part_block «module».now id.now decode_mode at) (parts code.now)) }
{
    parts_have_all_words();
    let cut = parts_of_block(alloc, code)?;
    push_parts(alloc, out, module, id, decode_mode, at, cut.as_slice())?;
    Ok(())
}

/// Adds the parts of the code block that a piece is.
fn push_spot(
    alloc: Global,
    out: &mut Vec<Block>,
    module: &Module,
    decode_mode: u64,
    id: &Uuid,
    spot: &Spot<'_>,
) -> Result<(), AllocError>
    requires { IsRoomy (placed_of spot.now) }
    ensures { OnOk result (out.new.items ≡ out.old.items ++ parts_in «module».now id.now decode_mode (placed_of spot.now)) }
{
    match spot.piece {
        Piece::Code(code) => push_code(alloc, out, module, decode_mode, id, spot.at, code),
        Piece::Data(_) | Piece::Gap(_) => Ok(()),
    }
}

/// Adds the parts of a code block.
fn push_found(
    alloc: Global,
    out: &mut Vec<Block>,
    module: &Module,
    spots: &[Spot<'_>],
    index: &IndexMap<Uuid, usize>,
    block: &Uuid,
    decode_mode: u64,
) -> Result<(), AllocError>
    requires { IfSome (spot_at spots.now (get bytes_eq index.now) block.now) IsRoomy }
    ensures { OnOk result (out.new.items ≡ out.old.items ++ parts_where «module».now block.now decode_mode (spot_at spots.now (get bytes_eq index.now) block.now)) }
{
    match spot_of(spots, index, block) {
        Some(spot) => push_spot(alloc, out, module, decode_mode, block, spot),
        None => Ok(()),
    }
}

/// Where a block begins.
fn start_of(spots: &[Spot<'_>], index: &IndexMap<Uuid, usize>, block: &Uuid) -> u64
    ensures { result ≡ start_where (spot_at spots.now (get bytes_eq index.now) block.now) }
{
    match spot_of(spots, index, block) {
        Some(spot) => spot.at,
        None => 0,
    }
}

/// Adds what a block becomes.
fn push_block(
    alloc: Global,
    out: &mut Vec<Block>,
    module: &Module,
    spots: &[Spot<'_>],
    index: &IndexMap<Uuid, usize>,
    block: &Block,
) -> Result<(), AllocError>
    requires { (id : List ℕ) → IfSome (spot_at spots.now (get bytes_eq index.now) id) IsRoomy }
    ensures { OnOk result (out.new.items ≡ out.old.items ++ block_where «module».now (spot_at spots.now (get bytes_eq index.now)) block.now) }
{
    match block.body {
        Body::Bare => {
            out.push(*block)?;
            Ok(())
        }
        Body::Code {
            uuid,
            decode_mode,
            ..
        } => push_found(alloc, out, module, spots, index, &uuid, decode_mode),
        Body::Data { uuid, .. } => {
            out.push(Block {
                offset: start_of(spots, index, &uuid),
                body: block.body,
            })?;
            Ok(())
        }
    }
}

/// The blocks of an interval, in the order of the file.
pub(crate) fn new_blocks(
    alloc: Global,
    module: &Module,
    spots: &[Spot<'_>],
    index: &IndexMap<Uuid, usize>,
    blocks: &[Block],
) -> Result<Seq<Block>, AllocError>
    requires { (id : List ℕ) → IfSome (spot_at spots.now (get bytes_eq index.now) id) IsRoomy }
    ensures { IfOk result (λ made. made ≡ flat_map (block_where «module».now (spot_at spots.now (get bytes_eq index.now))) blocks.now) }
{
    let mut out = Vec::new(alloc);
    for block in blocks {
        push_block(alloc, &mut out, module, spots, index, block)?;
    }
    Ok(Seq::from_vec(out))
}
