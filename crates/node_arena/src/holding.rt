//! New nodes in an arena and its index. Room is made first, so that want of memory changes nothing.

ghost use Rattle.std.specs.Prelude.{◌≡◌, ◌<◌, ◌≤◌, false, length, insert, IfOk, OnOk, OnErr};
ghost use Rattle.gt_model.specs.Linked.{is_bare_body};
ghost use Rattle.node_arena.specs.declared.ids.BlockId.{BlockId};
ghost use Rattle.node_arena.specs.declared.ids.NodeRef.TheVariants as refs;
ghost use Rattle.node_arena.specs.Changes.{symbol_added, interval_added, block_added, placed_after};
ghost use Rattle.node_arena.specs.Plain.{body_id};
ghost use Rattle.node_arena.specs.Stored.{FindsAlso, arenas_of};

use crate::arena::Arena;
use crate::ids::{BlockId, IntervalId, NodeRef, SymbolId};
use crate::nodes::{BlockNode, IntervalNode, SymbolNode};
use gr_base::Seq;
use gt_model::Body;
use indexmap::IndexMap;
use std::alloc::{AllocError, Global};
use std::mem;
use uuid::Uuid;

type Index = IndexMap<Uuid, NodeRef>;

/// The identifier of a block's body.
pub fn identifier(body: Body) -> Uuid
    requires { is_bare_body body ≡ false }
    ensures { result ≡ body_id body }
{
    match body {
        Body::Code { uuid, .. } | Body::Data { uuid, .. } => uuid,
        Body::Bare => unreachable!(),
    }
}

/// Puts a symbol after all others of its module.
pub fn hold_symbol(
    arena: &mut Arena,
    index: &mut Index,
    node: SymbolNode,
) -> Result<SymbolId, AllocError>
    requires { node.module.index < length arena.old.modules.items }
    ensures id { IfOk result (λ id. id.index ≡ length arena.old.symbols.items) }
    ensures ok { OnOk result (arenas_of arena.new ≡ symbol_added (arenas_of arena.old) node) }
    ensures index { IfOk result (λ id. FindsAlso index.old index.new node.uuid (refs.Symbol id)) }
    ensures err { OnErr result (arenas_of arena.new ≡ arenas_of arena.old) }
    ensures same_index { OnErr result (index.new.entries ≡ index.old.entries) }
{
    let id = SymbolId {
        index: arena.symbols.len(),
    };
    let uuid = node.uuid;
    arena.symbols.reserve(1)?;
    index.reserve(1)?;
    arena.modules[node.module.index].symbols.push(id)?;
    arena.symbols.push(node)?;
    index.insert(uuid, NodeRef::Symbol(id))?;
    Ok(id)
}

/// Puts an interval after all others of its section.
pub fn hold_interval(
    arena: &mut Arena,
    index: &mut Index,
    node: IntervalNode,
) -> Result<IntervalId, AllocError>
    requires { node.section.index < length arena.old.sections.items }
    ensures id { IfOk result (λ id. id.index ≡ length arena.old.intervals.items) }
    ensures ok { OnOk result (arenas_of arena.new ≡ interval_added (arenas_of arena.old) node) }
    ensures index { IfOk result (λ id. FindsAlso index.old index.new node.uuid (refs.Interval id)) }
    ensures err { OnErr result (arenas_of arena.new ≡ arenas_of arena.old) }
    ensures same_index { OnErr result (index.new.entries ≡ index.old.entries) }
{
    let id = IntervalId {
        index: arena.intervals.len(),
    };
    let uuid = node.uuid;
    arena.intervals.reserve(1)?;
    index.reserve(1)?;
    arena.sections[node.section.index].intervals.push(id)?;
    arena.intervals.push(node)?;
    index.insert(uuid, NodeRef::Interval(id))?;
    Ok(id)
}

/// The place after the named block, else the end.
fn place_after(ids: &[BlockId], after: Option<BlockId>) -> usize
    ensures within { result ≤ length ids.now }
    ensures place { (id : BlockId) → insert ids.now result id ≡ placed_after ids.now after id }
{
    match after {
        None => ids.len(),
        Some(after) => {
            for (k, id) in ids.iter().enumerate() {
                if id.index == after.index {
                    return k + 1;
                }
            }
            ids.len()
        }
    }
}

fn insert_id(
    alloc: Global,
    ids: &mut Seq<BlockId>,
    at: usize,
    id: BlockId,
) -> Result<(), AllocError>
    requires { at ≤ length ids.old }
    ensures ok { OnOk result (ids.new ≡ insert ids.old at id) }
    ensures err { OnErr result (ids.new ≡ ids.old) }
{
    let mut items = mem::replace(ids, Seq::new(alloc)).into_vec();
    let inserted = items.insert(at, id);
    *ids = Seq::from_vec(items);
    inserted?;
    Ok(())
}

/// Puts a block after the named one of its interval, else last.
pub fn hold_block(
    arena: &mut Arena,
    index: &mut Index,
    after: Option<BlockId>,
    node: BlockNode,
) -> Result<BlockId, AllocError>
    requires interval { node.interval.index < length arena.old.intervals.items }
    requires body { is_bare_body node.body ≡ false }
    ensures id { IfOk result (λ id. id.index ≡ length arena.old.blocks.items) }
    ensures ok { OnOk result (arenas_of arena.new ≡ block_added (arenas_of arena.old) after node) }
    ensures index { IfOk result (λ id. FindsAlso index.old index.new (body_id node.body) (refs.Block id)) }
    ensures err { OnErr result (arenas_of arena.new ≡ arenas_of arena.old) }
    ensures same_index { OnErr result (index.new.entries ≡ index.old.entries) }
{
    let id = BlockId {
        index: arena.blocks.len(),
    };
    let uuid = identifier(node.body);
    let alloc = *arena.blocks.allocator();
    arena.blocks.reserve(1)?;
    index.reserve(1)?;
    let parent = &mut arena.intervals[node.interval.index];
    let at = place_after(parent.blocks.as_slice(), after);
    insert_id(alloc, &mut parent.blocks, at, id)?;
    arena.blocks.push(node)?;
    index.insert(uuid, NodeRef::Block(id))?;
    Ok(id)
}
