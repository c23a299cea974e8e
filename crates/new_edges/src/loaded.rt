//! The blocks of loaded sections, and the symbols at their starts.

ghost use Rattle.std.specs.Prelude.{◌≡◌, ◌++◌, map, IfOk, OnOk};
ghost use Rattle.std.specs.Str.{bytes_eq};
ghost use Rattle.indexmap.specs.IndexMap.{get};
ghost use Rattle.new_edges.specs.Loaded.{block_entry};
ghost use Rattle.sym_expr.specs.Modules.{block_of, blocks_of, id_of, is_code, is_loaded, loaded_intervals};

use crate::index::index_of;
use gt_model::{Block, Body, Module, Section};
use indexmap::IndexMap;
use std::alloc::{AllocError, Global};
use uuid::Uuid;

/// GTIRB's number of the section flag.
const LOADED: i32 = 4;

fn is_loaded(section: &Section) -> bool
    ensures { result ≡ is_loaded section.now }
{
    section.flags.as_slice().contains(&LOADED)
}

pub(crate) fn is_code(block: &Block) -> bool
    ensures { result ≡ is_code block.now }
{
    matches!(block.body, Body::Code { .. })
}

/// The identifier of the block, nil for one that has none.
pub(crate) fn id_of(block: &Block) -> Uuid
    ensures { result ≡ id_of block.now }
{
    match block.body {
        Body::Bare => Uuid::nil(),
        Body::Code { uuid, .. } => uuid,
        Body::Data { uuid, .. } => uuid,
    }
}

fn add_blocks(blocks: &mut Vec<Block>, section: &Section) -> Result<(), AllocError>
    ensures { OnOk result (blocks.new.items ≡ blocks.old.items ++ blocks_of section.now.intervals) }
{
    for interval in section.intervals.as_slice() {
        blocks.extend_from_slice(interval.blocks.as_slice())?;
    }
    Ok(())
}

/// The blocks of the loaded sections, in the order of the file.
fn loaded_blocks(alloc: Global, module: &Module) -> Result<Vec<Block>, AllocError>
    ensures { IfOk result (λ blocks. blocks.items ≡ blocks_of (loaded_intervals «module».now)) }
{
    let mut blocks = Vec::new(alloc);
    for section in module.sections.as_slice() {
        if is_loaded(section) {
            add_blocks(&mut blocks, section)?;
        }
    }
    Ok(blocks)
}

fn block_entries(alloc: Global, blocks: &[Block]) -> Result<Vec<(Uuid, Block)>, AllocError>
    ensures { IfOk result (λ entries. entries.items ≡ map block_entry blocks.now) }
{
    let mut entries = Vec::new(alloc);
    for block in blocks {
        entries.push((id_of(block), *block))?;
    }
    Ok(entries)
}

/// The blocks of the loaded sections by their identifiers.
pub(crate) fn blocks_by_id(
    alloc: Global,
    module: &Module,
) -> Result<IndexMap<Uuid, Block>, AllocError>
    ensures { IfOk result (λ index. (id : _) → get bytes_eq index id ≡ block_of id (blocks_of (loaded_intervals «module».now))) }
{
    let blocks = loaded_blocks(alloc, module)?;
    let listed = blocks.as_slice();
    let entries = block_entries(alloc, listed)?;
    let keyed = entries.as_slice();
    let index = index_of(alloc, keyed)?;
    Ok(index)
}
