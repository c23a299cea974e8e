ghost use Rattle.std.specs.Prelude.{◌≡◌, ◌++◌, IfOk, OnOk, map};
ghost use Rattle.std.specs.List.{flat_map};
ghost use Rattle.node_arena.specs.declared.ids.NodeRef.TheVariants as refs;
ghost use Rattle.node_arena.specs.Refs.{block_refs, interval_refs, section_refs, module_refs, all_refs};
ghost use Rattle.node_arena.specs.Stored.{arenas_of};

use crate::arena::Arena;
use crate::ids::{BlockId, IntervalId, ModuleId, NodeRef, ProxyId, SectionId, SymbolId};
use gt_model::Body;
use std::alloc::{AllocError, Global};

fn push_blocks(arena: &Arena, ids: &[BlockId], out: &mut Vec<NodeRef>) -> Result<(), AllocError>
    ensures { OnOk result (out.new.items ≡ out.old.items ++ flat_map (block_refs (arenas_of arena.now)) ids.now) }
{
    for id in ids {
        if let Some(node) = arena.blocks.get(id.index)
            && node.body != Body::Bare
        {
            out.push(NodeRef::Block(*id))?;
        }
    }
    Ok(())
}

fn push_intervals(
    arena: &Arena,
    ids: &[IntervalId],
    out: &mut Vec<NodeRef>,
) -> Result<(), AllocError>
    ensures { OnOk result (out.new.items ≡ out.old.items ++ flat_map (interval_refs (arenas_of arena.now)) ids.now) }
{
    for id in ids {
        out.push(NodeRef::Interval(*id))?;
        if let Some(node) = arena.intervals.get(id.index) {
            push_blocks(arena, node.blocks.as_slice(), out)?;
        }
    }
    Ok(())
}

fn push_sections(arena: &Arena, ids: &[SectionId], out: &mut Vec<NodeRef>) -> Result<(), AllocError>
    ensures { OnOk result (out.new.items ≡ out.old.items ++ flat_map (section_refs (arenas_of arena.now)) ids.now) }
{
    for id in ids {
        out.push(NodeRef::Section(*id))?;
        if let Some(node) = arena.sections.get(id.index) {
            push_intervals(arena, node.intervals.as_slice(), out)?;
        }
    }
    Ok(())
}

fn push_symbols(ids: &[SymbolId], out: &mut Vec<NodeRef>) -> Result<(), AllocError>
    ensures { OnOk result (out.new.items ≡ out.old.items ++ map (λ id. refs.Symbol id) ids.now) }
{
    for id in ids {
        out.push(NodeRef::Symbol(*id))?;
    }
    Ok(())
}

fn push_proxies(ids: &[ProxyId], out: &mut Vec<NodeRef>) -> Result<(), AllocError>
    ensures { OnOk result (out.new.items ≡ out.old.items ++ map (λ id. refs.Proxy id) ids.now) }
{
    for id in ids {
        out.push(NodeRef::Proxy(*id))?;
    }
    Ok(())
}

/// The nodes in order.
pub fn all_refs(alloc: Global, arena: &Arena) -> Result<Vec<NodeRef>, AllocError>
    ensures { IfOk result (λ out. out.items ≡ all_refs (arenas_of arena.now)) }
{
    let mut out = Vec::new(alloc);
    out.push(NodeRef::Ir)?;
    for (index, node) in arena.modules.iter().enumerate() {
        out.push(NodeRef::Module(ModuleId { index }))?;
        push_proxies(node.proxies.as_slice(), &mut out)?;
        push_symbols(node.symbols.as_slice(), &mut out)?;
        push_sections(arena, node.sections.as_slice(), &mut out)?;
    }
    Ok(out)
}
