//! Where old edges leave the blocks in which words are inserted.

ghost use Rattle.std.specs.Prelude.{◌≡◌, ℕ, List, map, IfOk};
ghost use Rattle.std.specs.Str.{bytes_eq};
ghost use Rattle.indexmap.specs.IndexMap.{get};
ghost use Rattle.new_edges.specs.Keyed.{value_at};
ghost use Rattle.new_edges.specs.Leaving.{falls_of, has_own, jumping_start, leaving_entry, leaving_of, stops_behind};
ghost use Rattle.rewrite.specs.Places.{is_own};

use crate::blocks::PatchedBlock;
use crate::index::index_of;
use crate::parts::{id_at, last_word};
use crate::rows::never_goes_on;
use block_parts::{Origin, Part, PatchedWord};
use gt_model::Module;
use indexmap::IndexMap;
use std::alloc::{AllocError, Global};
use uuid::Uuid;

/// Where old edges leave a block: falls from its last part, or not at all where control never goes on
/// behind that, and all others from the part with the block's own last word.
#[derive(Clone, Copy, Debug, PartialEq, Eq)]
pub(crate) struct Leaving {
    pub falls: Option<Uuid>,
    pub jumps: Uuid,
}

/// The word is the block's own at an offset.
fn is_own(offset: u64, word: &PatchedWord) -> bool
    ensures { result ≡ is_own offset word.now.origin }
{
    match word.origin {
        Origin::Own(at) => offset == at,
        Origin::Inserted(_) => false,
    }
}

/// The part has the block's own word of an offset.
fn has_own(offset: u64, part: &Part) -> bool
    ensures { result ≡ has_own offset part.now }
{
    part.words
        .as_slice()
        .iter()
        .any(|word| is_own(offset, word))
}

/// The start of the first part with the own word of an offset, or else of the last part.
fn jumping_start(parts: &[Part], offset: u64, last: &Part) -> u64
    ensures { result ≡ jumping_start offset last.now parts.now }
{
    for part in parts {
        if has_own(offset, part) {
            return part.start;
        }
    }
    last.start
}

/// The last word of the part is an inserted B, BR or RET.
fn stops_behind(part: &Part) -> bool
    ensures { result ≡ stops_behind part.now }
{
    match last_word(part.words.as_slice()) {
        Some(word) => matches!(word.origin, Origin::Inserted(_)) && never_goes_on(word.word),
        None => false,
    }
}

/// What falls leave, of a block with this last part.
fn falls_of(
    alloc: Global,
    module: &Module,
    block: &Uuid,
    last: &Part,
) -> Result<Option<Uuid>, AllocError>
    ensures { IfOk result (λ id. id ≡ falls_of «module».now block.now last.now) }
{
    if stops_behind(last) {
        return Ok(None);
    }
    let id = id_at(alloc, module, block, last.start)?;
    Ok(Some(id))
}

/// Where old edges leave a block, if words are inserted in it.
fn leaving_of(
    alloc: Global,
    module: &Module,
    block: &PatchedBlock,
) -> Result<Option<Leaving>, AllocError>
    ensures { IfOk result (λ leaving. leaving ≡ leaving_of «module».now block.now) }
{
    let parts = block.parts.as_slice();
    match parts.last() {
        Some(last) => {
            let falls = falls_of(alloc, module, &block.id, last)?;
            let start = jumping_start(parts, block.size.saturating_sub(4), last);
            let jumps = id_at(alloc, module, &block.id, start)?;
            Ok(Some(Leaving { falls, jumps }))
        }
        None => Ok(None),
    }
}

fn leaving_entries(
    alloc: Global,
    module: &Module,
    blocks: &[PatchedBlock],
) -> Result<Vec<(Uuid, Option<Leaving>)>, AllocError>
    ensures { IfOk result (λ entries. entries.items ≡ map (leaving_entry «module».now) blocks.now) }
{
    let mut entries = Vec::new(alloc);
    for block in blocks {
        let leaving = leaving_of(alloc, module, block)?;
        entries.push((block.id, leaving))?;
    }
    Ok(entries)
}

/// Where old edges leave each block.
pub(crate) fn leaving_by_block(
    alloc: Global,
    module: &Module,
    blocks: &[PatchedBlock],
) -> Result<IndexMap<Uuid, Option<Leaving>>, AllocError>
    ensures { IfOk result (λ index. (id : List ℕ) → get bytes_eq index id ≡ value_at bytes_eq id (map (leaving_entry «module».now) blocks.now)) }
{
    let entries = leaving_entries(alloc, module, blocks)?;
    let keyed = entries.as_slice();
    let index = index_of(alloc, keyed)?;
    Ok(index)
}
