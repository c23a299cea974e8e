ghost use Rattle.std.specs.Prelude.{◌≡◌, IfOk, OnOk, List, [], ◌∷◌, ◌++◌, map};
ghost use Rattle.gt_model.specs.declared.ir.Ir.{Ir};
ghost use Rattle.gt_model.specs.declared.modules.Module.{Module};
ghost use Rattle.node_arena.specs.Stored.{arenas_of};
ghost use Rattle.node_arena.specs.Placing.{PlacedBlocks, PlacedIntervals, PlacedSections, PlacedSymbols, PlacedProxies, Drafted, blocks_tree, lower_tree, full_tree, payload_of, placed_module};

use crate::arena::Arena;
use crate::ids::{BlockId, IntervalId, ModuleId, ProxyId, SectionId, SymbolId};
use crate::nodes::{
    BlockNode, IntervalNode, ModuleNode, NodePayload, ProxyNode, SectionNode, SymbolNode,
};
use gr_base::{Bytes, Seq, Text};
use gt_model::{Block, Interval, Ir, Module, Payload, Section, Symbol, copy_all};
use std::alloc::{AllocError, Global};
use uuid::Uuid;

/// An arena, and beside it the payloads of its symbols.
#[derive(Drop)]
pub struct Draft {
    pub arena: Arena,
    pub payloads: Vec<Payload>,
}

/// An arena with the root of an IR, and no other node.
fn rooted(alloc: Global, ir: &Ir) -> Result<Arena, AllocError>
    ensures { IfOk result (λ a. Drafted ir.now [] [] (arenas_of a)) }
{
    Ok(Arena {
        uuid: ir.uuid,
        version: ir.version,
        aux: copy_all(alloc, &ir.aux)?,
        modules: Vec::new(alloc),
        sections: Vec::new(alloc),
        intervals: Vec::new(alloc),
        blocks: Vec::new(alloc),
        symbols: Vec::new(alloc),
        proxies: Vec::new(alloc),
        edges: Vec::new(alloc),
        live: Vec::new(alloc),
        vertices: Vec::new(alloc),
        has_cfg: ir.cfg.is_some(),
    })
}

fn place_blocks(
    alloc: Global,
    blocks: &mut Vec<BlockNode>,
    parent: IntervalId,
    from: &[Block],
) -> Result<Seq<BlockId>, AllocError>
    ensures { IfOk result (λ ids. PlacedBlocks parent.index from.now blocks.old.items ids blocks.new.items) }
{
    let mut ids = Vec::new(alloc);
    for block in from {
        ids.push(BlockId {
            index: blocks.len(),
        })?;
        blocks.push(BlockNode {
            offset: block.offset,
            body: block.body,
            interval: parent,
        })?;
    }
    Ok(Seq::from_vec(ids))
}

fn place_interval(
    alloc: Global,
    arena: &mut Arena,
    parent: SectionId,
    from: &Interval,
) -> Result<IntervalId, AllocError>
    requires { blocks_tree (arenas_of arena.old) }
    ensures { IfOk result (λ id. PlacedIntervals parent.index (from.now ∷ []) (arenas_of arena.old) (id ∷ []) (arenas_of arena.new)) }
{
    let id = IntervalId {
        index: arena.intervals.len(),
    };
    let blocks = place_blocks(alloc, &mut arena.blocks, id, from.blocks.as_slice())?;
    arena.intervals.push(IntervalNode {
        uuid: from.uuid,
        has_address: from.has_address,
        address: from.address,
        size: from.size,
        contents: Bytes::from_slice(alloc, from.contents.as_slice())?,
        exprs: copy_all(alloc, &from.exprs)?,
        blocks,
        section: parent,
    })?;
    Ok(id)
}

fn place_intervals(
    alloc: Global,
    arena: &mut Arena,
    parent: SectionId,
    from: &[Interval],
) -> Result<Seq<IntervalId>, AllocError>
    requires { blocks_tree (arenas_of arena.old) }
    ensures { IfOk result (λ ids. PlacedIntervals parent.index from.now (arenas_of arena.old) ids (arenas_of arena.new)) }
{
    let mut ids = Vec::new(alloc);
    for interval in from {
        ids.push(place_interval(alloc, arena, parent, interval)?)?;
    }
    Ok(Seq::from_vec(ids))
}

fn place_section(
    alloc: Global,
    arena: &mut Arena,
    parent: ModuleId,
    from: &Section,
) -> Result<SectionId, AllocError>
    requires { lower_tree (arenas_of arena.old) }
    ensures { IfOk result (λ id. PlacedSections parent.index (from.now ∷ []) (arenas_of arena.old) (id ∷ []) (arenas_of arena.new)) }
{
    let id = SectionId {
        index: arena.sections.len(),
    };
    let intervals = place_intervals(alloc, arena, id, from.intervals.as_slice())?;
    arena.sections.push(SectionNode {
        uuid: from.uuid,
        name: Text::from_str(alloc, from.name.as_str())?,
        flags: Seq::from_slice(alloc, from.flags.as_slice())?,
        intervals,
        module: parent,
    })?;
    Ok(id)
}

fn place_sections(
    alloc: Global,
    arena: &mut Arena,
    parent: ModuleId,
    from: &[Section],
) -> Result<Seq<SectionId>, AllocError>
    requires { lower_tree (arenas_of arena.old) }
    ensures { IfOk result (λ ids. PlacedSections parent.index from.now (arenas_of arena.old) ids (arenas_of arena.new)) }
{
    let mut ids = Vec::new(alloc);
    for section in from {
        ids.push(place_section(alloc, arena, parent, section)?)?;
    }
    Ok(Seq::from_vec(ids))
}

// The symbols stand for nothing until all nodes are placed.
fn place_symbols(
    alloc: Global,
    symbols: &mut Vec<SymbolNode>,
    payloads: &mut Vec<Payload>,
    parent: ModuleId,
    from: &[Symbol],
) -> Result<Seq<SymbolId>, AllocError>
    ensures nodes { IfOk result (λ ids. PlacedSymbols parent.index from.now symbols.old.items ids symbols.new.items) }
    ensures payloads { OnOk result (payloads.new.items ≡ payloads.old.items ++ map payload_of from.now) }
{
    let mut ids = Vec::new(alloc);
    for symbol in from {
        ids.push(SymbolId {
            index: symbols.len(),
        })?;
        payloads.push(symbol.payload)?;
        symbols.push(SymbolNode {
            uuid: symbol.uuid,
            name: Text::from_str(alloc, symbol.name.as_str())?,
            at_end: symbol.at_end,
            payload: NodePayload::Nothing,
            module: parent,
        })?;
    }
    Ok(Seq::from_vec(ids))
}

fn place_proxies(
    alloc: Global,
    proxies: &mut Vec<ProxyNode>,
    parent: ModuleId,
    from: &[Uuid],
) -> Result<Seq<ProxyId>, AllocError>
    ensures { IfOk result (λ ids. PlacedProxies parent.index from.now proxies.old.items ids proxies.new.items) }
{
    let mut ids = Vec::new(alloc);
    for uuid in from {
        ids.push(ProxyId {
            index: proxies.len(),
        })?;
        proxies.push(ProxyNode {
            uuid: *uuid,
            module: parent,
        })?;
    }
    Ok(Seq::from_vec(ids))
}

// The module has no entry until all nodes are placed.
fn module_node(
    alloc: Global,
    from: &Module,
    symbols: Seq<SymbolId>,
    sections: Seq<SectionId>,
    proxies: Seq<ProxyId>,
) -> Result<ModuleNode, AllocError>
    ensures { IfOk result (λ n. n ≡ placed_module from.now symbols sections proxies) }
{
    Ok(ModuleNode {
        uuid: from.uuid,
        binary_path: Text::from_str(alloc, from.binary_path.as_str())?,
        preferred_addr: from.preferred_addr,
        rebase_delta: from.rebase_delta,
        file_format: from.file_format,
        isa: from.isa,
        name: Text::from_str(alloc, from.name.as_str())?,
        symbols,
        sections,
        proxies,
        aux: copy_all(alloc, &from.aux)?,
        entry: None,
        byte_order: from.byte_order,
    })
}

fn place_module(alloc: Global, draft: &mut Draft, from: &Module) -> Result<(), AllocError>
    requires { full_tree (arenas_of draft.old.arena) }
    ensures { OnOk result ((ir : Ir) (done : List Module) → Drafted ir done draft.old.payloads.items (arenas_of draft.old.arena)
        → Drafted ir (done ++ from.now ∷ []) draft.new.payloads.items (arenas_of draft.new.arena)) }
{
    let id = ModuleId {
        index: draft.arena.modules.len(),
    };
    let arena = &mut draft.arena;
    let proxies = place_proxies(alloc, &mut arena.proxies, id, from.proxies.as_slice())?;
    let symbols = place_symbols(
        alloc,
        &mut arena.symbols,
        &mut draft.payloads,
        id,
        from.symbols.as_slice(),
    )?;
    let sections = place_sections(alloc, arena, id, from.sections.as_slice())?;
    arena
        .modules
        .push(module_node(alloc, from, symbols, sections, proxies)?)?;
    Ok(())
}

/// The nodes of an IR, without edges and without what symbols and entries refer to.
pub fn draft_of(alloc: Global, ir: &Ir) -> Result<Draft, AllocError>
    ensures { IfOk result (λ d. Drafted ir.now ir.now.modules d.payloads.items (arenas_of d.arena)) }
{
    let mut draft = Draft {
        arena: rooted(alloc, ir)?,
        payloads: Vec::new(alloc),
    };
    for module in ir.modules.as_slice() {
        place_module(alloc, &mut draft, module)?;
    }
    Ok(draft)
}
