//! The edges from the parts of blocks, and the identifiers of later parts.

ghost use Rattle.std.specs.Prelude.{◌≡◌, ◌++◌, map, IfOk, OnOk};
ghost use Rattle.std.specs.List.{flat_map};
ghost use Rattle.std.specs.Option.{option_copied, option_map};
ghost use Rattle.std.specs.Str.{bytes_eq};
ghost use Rattle.edge_repair.specs.Edges.{end_edges};
ghost use Rattle.edge_repair.specs.Ends.{last_of, part_end, part_ends};
ghost use Rattle.new_edges.specs.Knowing.{KnowsBranches, branches_in};
ghost use Rattle.new_edges.specs.NewEnds.{branch_of};
ghost use Rattle.new_edges.specs.Parts.{block_edges, id_at, later_ids, origin_branch, part_seen};
ghost use Rattle.rewrite.specs.Exprs.{news_of};
ghost use Rattle.rewrite.specs.Identifiers.{part_id};

use crate::blocks::PatchedBlock;
use crate::context::Context;
use crate::new_end::{Branch, NewEnd, push_edges};
use block_parts::{Origin, Part, PatchedWord};
use derived_ids::part_id;
use gr_base::Seq;
use gt_model::{Edge, Module};
use indexmap::IndexMap;
use std::alloc::{AllocError, Global};
use uuid::Uuid;

/// The identifier of the part of a block that begins at an offset: the first keeps the block's.
pub(crate) fn id_at(
    alloc: Global,
    module: &Module,
    block: &Uuid,
    start: u64,
) -> Result<Uuid, AllocError>
    ensures { IfOk result (λ id. id ≡ id_at «module».now block.now start) }
{
    if start == 0 {
        return Ok(*block);
    }
    part_id(alloc, &module.uuid, block, start)
}

/// The identifier of a part, if there is one.
fn id_of_next(
    alloc: Global,
    module: &Module,
    block: &Uuid,
    part: Option<&Part>,
) -> Result<Option<Uuid>, AllocError>
    ensures { IfOk result (λ id. id ≡ option_map (part_id «module».now block.now) (option_copied part.entry)) }
{
    match part {
        Some(part) => {
            let id = id_at(alloc, module, block, part.start)?;
            Ok(Some(id))
        }
        None => Ok(None),
    }
}

/// The last of several words.
pub(crate) fn last_word(words: &[PatchedWord]) -> Option<PatchedWord>
    ensures { result ≡ last_of words.now }
{
    match words.last() {
        Some(word) => Some(*word),
        None => None,
    }
}

/// Where a word leads, if it is one of these inserted words.
fn origin_branch(news: &[Option<Branch>], origin: Origin) -> Option<Branch>
    ensures { result ≡ origin_branch news.now origin }
{
    match origin {
        Origin::Own(_) => None,
        Origin::Inserted(k) => match news.get(k as usize) {
            Some(branch) => *branch,
            None => None,
        },
    }
}

/// How a part ends, and what follows it.
fn part_end(
    alloc: Global,
    module: &Module,
    block: &Uuid,
    news: &[Option<Branch>],
    part: &Part,
    next: Option<&Part>,
) -> Result<NewEnd, AllocError>
    ensures { IfOk result (λ end. end ≡ part_seen «module».now news.now block.now part.now (option_copied next.entry)) }
{
    let id = id_at(alloc, module, block, part.start)?;
    let next = id_of_next(alloc, module, block, next)?;
    match last_word(part.words.as_slice()) {
        Some(word) => Ok(NewEnd {
            id,
            word: Some(word.word),
            branch: origin_branch(news, word.origin),
            next,
        }),
        None => Ok(NewEnd {
            id,
            word: None,
            branch: None,
            next,
        }),
    }
}

/// The edges from a part, behind those before.
fn push_part(
    alloc: Global,
    edges: &mut Vec<Edge>,
    context: &Context<'_>,
    block: &PatchedBlock,
    news: &[Option<Branch>],
    part: &Part,
    next: Option<&Part>,
) -> Result<(), AllocError>
    requires { news.now ≡ map (branch_of context.now.module.now context.now.patches.now) (news_of context.now.patches.now block.now.id) }
    ensures { OnOk result (edges.new.items ≡ edges.old.items ++ end_edges context.now.module.now context.now.patches.now (part_end context.now.module.now context.now.patches.now block.now.id part.now (option_copied next.entry))) }
{
    let end = part_end(alloc, context.module, &block.id, news, part, next)?;
    push_edges(edges, &end)?;
    Ok(())
}

/// The edges from the parts of a block, behind those before.
fn push_parts(
    alloc: Global,
    edges: &mut Vec<Edge>,
    context: &Context<'_>,
    block: &PatchedBlock,
    news: &[Option<Branch>],
) -> Result<(), AllocError>
    requires { news.now ≡ map (branch_of context.now.module.now context.now.patches.now) (news_of context.now.patches.now block.now.id) }
    ensures { OnOk result (edges.new.items ≡ edges.old.items ++ block_edges context.now.module.now context.now.patches.now block.now) }
{
    let mut k = 0;
    for part in block.parts.as_slice() {
        let next = block.parts.get(k + 1);
        push_part(alloc, edges, context, block, news, part, next)?;
        k += 1;
    }
    Ok(())
}

/// The branches of the words that are inserted in a block.
fn branches_in<'a>(
    branches: &'a IndexMap<Uuid, Seq<Option<Branch>>>,
    block: &Uuid,
) -> &'a [Option<Branch>]
    ensures { result.now ≡ branches_in branches.now block.now }
{
    match branches.get(block) {
        Some(branches) => branches.as_slice(),
        None => &[],
    }
}

/// The edges from the parts of blocks, behind those before.
pub(crate) fn push_blocks(
    alloc: Global,
    edges: &mut Vec<Edge>,
    context: &Context<'_>,
    branches: &IndexMap<Uuid, Seq<Option<Branch>>>,
    blocks: &[PatchedBlock],
) -> Result<(), AllocError>
    requires { KnowsBranches context.now.module.now context.now.patches.now branches.now }
    ensures { OnOk result (edges.new.items ≡ edges.old.items ++ flat_map (block_edges context.now.module.now context.now.patches.now) blocks.now) }
{
    for block in blocks {
        let news = branches_in(branches, &block.id);
        push_parts(alloc, edges, context, block, news)?;
    }
    Ok(())
}

fn push_ids(
    alloc: Global,
    ids: &mut Vec<Uuid>,
    module: &Module,
    block: &Uuid,
    parts: &[Part],
) -> Result<(), AllocError>
    ensures { OnOk result (ids.new.items ≡ ids.old.items ++ map (part_id «module».now block.now) parts.now) }
{
    for part in parts {
        let id = id_at(alloc, module, block, part.start)?;
        ids.push(id)?;
    }
    Ok(())
}

/// The identifiers of the later parts of a block, behind those before.
fn push_later(
    alloc: Global,
    ids: &mut Vec<Uuid>,
    module: &Module,
    block: &PatchedBlock,
) -> Result<(), AllocError>
    ensures { OnOk result (ids.new.items ≡ ids.old.items ++ later_ids «module».now block.now) }
{
    match block.parts.as_slice() {
        [] => Ok(()),
        [_, later @ ..] => push_ids(alloc, ids, module, &block.id, later),
    }
}

/// The identifiers of the later parts of blocks, behind those before.
pub(crate) fn push_all_later(
    alloc: Global,
    ids: &mut Vec<Uuid>,
    module: &Module,
    blocks: &[PatchedBlock],
) -> Result<(), AllocError>
    ensures { OnOk result (ids.new.items ≡ ids.old.items ++ flat_map (later_ids «module».now) blocks.now) }
{
    for block in blocks {
        push_later(alloc, ids, module, block)?;
    }
    Ok(())
}
