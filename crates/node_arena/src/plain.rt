ghost use Rattle.std.specs.Prelude.{◌≡◌, map, IfOk, IfSome};
ghost use Rattle.std.specs.Option.{option_map};
ghost use Rattle.node_arena.specs.declared.ids.NodeRef.TheVariants as refs;
ghost use Rattle.node_arena.specs.Arenas.{module_at};
ghost use Rattle.node_arena.specs.Parts.{live_blocks, live_intervals, live_sections, live_symbols, live_proxies, LivePayload};
ghost use Rattle.node_arena.specs.Plain.{proxy_id, block_id, plain_block, plain_interval, plain_section, plain_payload, plain_symbol, plain_module, end_id, plain_edge, ir_of};
ghost use Rattle.node_arena.specs.Sound.{sound, Live, IsVertex};
ghost use Rattle.node_arena.specs.Stored.{arenas_of};

use crate::arena::Arena;
use crate::ids::{
    BlockId, CfgEnd, EdgeId, IntervalId, ModuleId, NodeRef, ProxyId, SectionId, SymbolId,
};
use crate::index::uuid_of;
use crate::nodes::NodePayload;
use gr_base::{Bytes, Seq, Text};
use gt_model::{Block, Cfg, Edge, Interval, Ir, Module, Payload, Section, Symbol, copy_all};
use std::alloc::{AllocError, Global};
use uuid::Uuid;

fn plain_blocks(alloc: Global, arena: &Arena, ids: &[BlockId]) -> Result<Seq<Block>, AllocError>
    requires { live_blocks (arenas_of arena.now) ids.now }
    ensures { IfOk result (λ blocks. blocks ≡ map (plain_block (arenas_of arena.now)) ids.now) }
{
    let mut blocks = Vec::new(alloc);
    for id in ids {
        let node = arena.blocks[id.index];
        blocks.push(Block {
            offset: node.offset,
            body: node.body,
        })?;
    }
    Ok(Seq::from_vec(blocks))
}

fn plain_interval(alloc: Global, arena: &Arena, id: IntervalId) -> Result<Interval, AllocError>
    requires sound { sound (arenas_of arena.now) }
    requires live { Live (arenas_of arena.now) (refs.Interval id) }
    ensures { IfOk result (λ interval. interval ≡ plain_interval (arenas_of arena.now) id) }
{
    let node = &arena.intervals[id.index];
    Ok(Interval {
        uuid: node.uuid,
        blocks: plain_blocks(alloc, arena, node.blocks.as_slice())?,
        exprs: copy_all(alloc, &node.exprs)?,
        has_address: node.has_address,
        address: node.address,
        size: node.size,
        contents: Bytes::from_slice(alloc, node.contents.as_slice())?,
    })
}

fn plain_intervals(
    alloc: Global,
    arena: &Arena,
    ids: &[IntervalId],
) -> Result<Seq<Interval>, AllocError>
    requires sound { sound (arenas_of arena.now) }
    requires live { live_intervals (arenas_of arena.now) ids.now }
    ensures { IfOk result (λ intervals. intervals ≡ map (plain_interval (arenas_of arena.now)) ids.now) }
{
    let mut intervals = Vec::new(alloc);
    for id in ids {
        intervals.push(plain_interval(alloc, arena, *id)?)?;
    }
    Ok(Seq::from_vec(intervals))
}

fn plain_section(alloc: Global, arena: &Arena, id: SectionId) -> Result<Section, AllocError>
    requires sound { sound (arenas_of arena.now) }
    requires live { Live (arenas_of arena.now) (refs.Section id) }
    ensures { IfOk result (λ section. section ≡ plain_section (arenas_of arena.now) id) }
{
    let node = &arena.sections[id.index];
    Ok(Section {
        uuid: node.uuid,
        name: Text::from_str(alloc, node.name.as_str())?,
        intervals: plain_intervals(alloc, arena, node.intervals.as_slice())?,
        flags: Seq::from_slice(alloc, node.flags.as_slice())?,
    })
}

fn plain_sections(
    alloc: Global,
    arena: &Arena,
    ids: &[SectionId],
) -> Result<Seq<Section>, AllocError>
    requires sound { sound (arenas_of arena.now) }
    requires live { live_sections (arenas_of arena.now) ids.now }
    ensures { IfOk result (λ sections. sections ≡ map (plain_section (arenas_of arena.now)) ids.now) }
{
    let mut sections = Vec::new(alloc);
    for id in ids {
        sections.push(plain_section(alloc, arena, *id)?)?;
    }
    Ok(Seq::from_vec(sections))
}

fn plain_payload(arena: &Arena, payload: NodePayload) -> Payload
    requires { LivePayload (arenas_of arena.now) payload }
    ensures { result ≡ plain_payload (arenas_of arena.now) payload }
{
    match payload {
        NodePayload::Nothing => Payload::Nothing,
        NodePayload::Value(value) => Payload::Value(value),
        NodePayload::Block(id) => Payload::Referent(uuid_of(arena, NodeRef::Block(id))),
        NodePayload::Proxy(id) => Payload::Referent(uuid_of(arena, NodeRef::Proxy(id))),
    }
}

fn plain_symbol(alloc: Global, arena: &Arena, id: SymbolId) -> Result<Symbol, AllocError>
    requires sound { sound (arenas_of arena.now) }
    requires live { Live (arenas_of arena.now) (refs.Symbol id) }
    ensures { IfOk result (λ symbol. symbol ≡ plain_symbol (arenas_of arena.now) id) }
{
    let node = &arena.symbols[id.index];
    Ok(Symbol {
        uuid: node.uuid,
        name: Text::from_str(alloc, node.name.as_str())?,
        at_end: node.at_end,
        payload: plain_payload(arena, node.payload),
    })
}

fn plain_symbols(alloc: Global, arena: &Arena, ids: &[SymbolId]) -> Result<Seq<Symbol>, AllocError>
    requires sound { sound (arenas_of arena.now) }
    requires live { live_symbols (arenas_of arena.now) ids.now }
    ensures { IfOk result (λ symbols. symbols ≡ map (plain_symbol (arenas_of arena.now)) ids.now) }
{
    let mut symbols = Vec::new(alloc);
    for id in ids {
        symbols.push(plain_symbol(alloc, arena, *id)?)?;
    }
    Ok(Seq::from_vec(symbols))
}

fn proxy_ids(alloc: Global, arena: &Arena, ids: &[ProxyId]) -> Result<Seq<Uuid>, AllocError>
    requires { live_proxies (arenas_of arena.now) ids.now }
    ensures { IfOk result (λ proxies. proxies ≡ map (proxy_id (arenas_of arena.now)) ids.now) }
{
    let mut proxies = Vec::new(alloc);
    for id in ids {
        proxies.push(arena.proxies[id.index].uuid)?;
    }
    Ok(Seq::from_vec(proxies))
}

fn entry_id(arena: &Arena, entry: Option<BlockId>) -> Option<Uuid>
    requires { IfSome entry (λ id. Live (arenas_of arena.now) (refs.Block id)) }
    ensures { result ≡ option_map (block_id (arenas_of arena.now)) entry }
{
    match entry {
        None => None,
        Some(id) => Some(uuid_of(arena, NodeRef::Block(id))),
    }
}

/// A module as a plain value.
pub fn plain_module(alloc: Global, arena: &Arena, id: ModuleId) -> Result<Module, AllocError>
    requires sound { sound (arenas_of arena.now) }
    requires live { Live (arenas_of arena.now) (refs.Module id) }
    ensures { IfOk result (λ m. m ≡ plain_module (arenas_of arena.now) (module_at (arenas_of arena.now) id)) }
{
    let node = &arena.modules[id.index];
    Ok(Module {
        uuid: node.uuid,
        binary_path: Text::from_str(alloc, node.binary_path.as_str())?,
        preferred_addr: node.preferred_addr,
        rebase_delta: node.rebase_delta,
        file_format: node.file_format,
        isa: node.isa,
        name: Text::from_str(alloc, node.name.as_str())?,
        symbols: plain_symbols(alloc, arena, node.symbols.as_slice())?,
        sections: plain_sections(alloc, arena, node.sections.as_slice())?,
        proxies: proxy_ids(alloc, arena, node.proxies.as_slice())?,
        aux: copy_all(alloc, &node.aux)?,
        entry: entry_id(arena, node.entry),
        byte_order: node.byte_order,
    })
}

fn plain_modules(alloc: Global, arena: &Arena) -> Result<Seq<Module>, AllocError>
    requires { sound (arenas_of arena.now) }
    ensures { IfOk result (λ ms. ms ≡ map (plain_module (arenas_of arena.now)) arena.now.modules.items) }
{
    let mut modules = Vec::new(alloc);
    for index in 0..arena.modules.len() {
        modules.push(plain_module(alloc, arena, ModuleId { index })?)?;
    }
    Ok(Seq::from_vec(modules))
}

fn end_id(arena: &Arena, end: CfgEnd) -> Uuid
    requires sound { sound (arenas_of arena.now) }
    requires vertex { IsVertex (arenas_of arena.now) end }
    ensures { result ≡ end_id (arenas_of arena.now) end }
{
    match end {
        CfgEnd::Block(id) => uuid_of(arena, NodeRef::Block(id)),
        CfgEnd::Proxy(id) => uuid_of(arena, NodeRef::Proxy(id)),
    }
}

fn plain_edges(alloc: Global, arena: &Arena) -> Result<Seq<Edge>, AllocError>
    requires { sound (arenas_of arena.now) }
    ensures { IfOk result (λ edges. edges ≡ map (plain_edge (arenas_of arena.now)) arena.now.live.items) }
{
    let mut edges = Vec::new(alloc);
    for id in arena.live.as_slice() {
        let node = arena.edges[id.index];
        edges.push(Edge {
            source: end_id(arena, node.source),
            target: end_id(arena, node.target),
            label: node.label,
        })?;
    }
    Ok(Seq::from_vec(edges))
}

fn plain_vertices(alloc: Global, arena: &Arena) -> Result<Seq<Uuid>, AllocError>
    requires { sound (arenas_of arena.now) }
    ensures { IfOk result (λ vertices. vertices ≡ map (end_id (arenas_of arena.now)) arena.now.vertices.items) }
{
    let mut vertices = Vec::new(alloc);
    for end in arena.vertices.as_slice() {
        vertices.push(end_id(arena, *end))?;
    }
    Ok(Seq::from_vec(vertices))
}

fn plain_cfg(alloc: Global, arena: &Arena) -> Result<Option<Cfg>, AllocError>
    requires { sound (arenas_of arena.now) }
    ensures { IfOk result (λ cfg. cfg ≡ (ir_of (arenas_of arena.now)).cfg) }
{
    if !arena.has_cfg {
        return Ok(None);
    }
    Ok(Some(Cfg {
        edges: plain_edges(alloc, arena)?,
        vertices: plain_vertices(alloc, arena)?,
    }))
}

/// The nodes as plain values.
pub fn plain_ir(alloc: Global, arena: &Arena) -> Result<Ir, AllocError>
    requires { sound (arenas_of arena.now) }
    ensures { IfOk result (λ ir. ir ≡ ir_of (arenas_of arena.now)) }
{
    Ok(Ir {
        uuid: arena.uuid,
        modules: plain_modules(alloc, arena)?,
        aux: copy_all(alloc, &arena.aux)?,
        version: arena.version,
        cfg: plain_cfg(alloc, arena)?,
    })
}
