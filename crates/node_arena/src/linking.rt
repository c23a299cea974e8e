ghost use Rattle.std.specs.Prelude.{◌≡◌, length, map, IfOk};
ghost use Rattle.std.specs.List.{AllByRecursion, range_with_len};
ghost use Rattle.std.specs.Str.{bytes_eq};
ghost use Rattle.indexmap.specs.IndexMap.{get};
ghost use Rattle.node_arena.specs.Linking.{IsEnd, HasEnds, Linked, payload_found, entry_found, module_entry, end_found, edge_found, edge_places, cfg_edges, cfg_vertices, loose_symbol, loose_module};
ghost use Rattle.node_arena.specs.declared.nodes.ModuleNode.{ModuleNode};
ghost use Rattle.node_arena.specs.declared.nodes.SymbolNode.{SymbolNode};
ghost use Rattle.node_arena.specs.Stored.{arenas_of};

use crate::arena::Arena;
use crate::draft::Draft;
use crate::ids::{BlockId, CfgEnd, EdgeId, NodeRef};
use crate::nodes::{EdgeNode, ModuleNode, NodePayload, SymbolNode};
use gt_model::{Cfg, Edge, Ir, Module, Payload};
use indexmap::IndexMap;
use std::alloc::{AllocError, Global};
use uuid::Uuid;

type Index = IndexMap<Uuid, NodeRef>;

fn payload_of(index: &Index, payload: Payload) -> NodePayload
    ensures { result ≡ payload_found (get bytes_eq index.now) payload }
{
    match payload {
        Payload::Nothing => NodePayload::Nothing,
        Payload::Value(value) => NodePayload::Value(value),
        Payload::Referent(id) => match index.get(&id).copied() {
            Some(NodeRef::Block(id)) => NodePayload::Block(id),
            Some(NodeRef::Proxy(id)) => NodePayload::Proxy(id),
            _ => NodePayload::Nothing,
        },
    }
}

fn entry_of(index: &Index, entry: Option<Uuid>) -> Option<BlockId>
    ensures { result ≡ entry_found (get bytes_eq index.now) entry }
{
    match entry {
        None => None,
        Some(id) => match index.get(&id).copied() {
            Some(NodeRef::Block(id)) => Some(id),
            _ => None,
        },
    }
}

fn end_of(index: &Index, id: Uuid) -> CfgEnd
    requires { IsEnd (get bytes_eq index.now id) }
    ensures { result ≡ end_found (get bytes_eq index.now) id }
{
    match index.get(&id).copied() {
        Some(NodeRef::Block(id)) => CfgEnd::Block(id),
        Some(NodeRef::Proxy(id)) => CfgEnd::Proxy(id),
        _ => unreachable!(),
    }
}

fn link_symbols(index: &Index, payloads: &[Payload], symbols: &mut Vec<SymbolNode>)
    requires { length payloads.now ≡ length symbols.old.items }
    ensures nodes { map loose_symbol symbols.new.items ≡ map loose_symbol symbols.old.items }
    ensures payloads { map (λ (n : SymbolNode). n.payload) symbols.new.items ≡ map (payload_found (get bytes_eq index.now)) payloads.now }
{
    for (k, payload) in payloads.iter().enumerate() {
        symbols[k].payload = payload_of(index, *payload);
    }
}

fn link_entries(index: &Index, from: &[Module], modules: &mut Vec<ModuleNode>)
    requires { length from.now ≡ length modules.old.items }
    ensures nodes { map loose_module modules.new.items ≡ map loose_module modules.old.items }
    ensures entries { map (λ (n : ModuleNode). n.entry) modules.new.items ≡ map (module_entry (get bytes_eq index.now)) from.now }
{
    for (k, module) in from.iter().enumerate() {
        modules[k].entry = entry_of(index, module.entry);
    }
}

fn edges_of(alloc: Global, index: &Index, from: &[Edge]) -> Result<Vec<EdgeNode>, AllocError>
    requires { AllByRecursion (HasEnds (get bytes_eq index.now)) from.now }
    ensures { IfOk result (λ edges. edges.items ≡ map (edge_found (get bytes_eq index.now)) from.now) }
{
    let mut edges = Vec::new(alloc);
    for edge in from {
        edges.push(EdgeNode {
            source: end_of(index, edge.source),
            target: end_of(index, edge.target),
            label: edge.label,
        })?;
    }
    Ok(edges)
}

fn vertices_of(alloc: Global, index: &Index, from: &[Uuid]) -> Result<Vec<CfgEnd>, AllocError>
    requires { AllByRecursion (λ id. IsEnd (get bytes_eq index.now id)) from.now }
    ensures { IfOk result (λ vertices. vertices.items ≡ map (end_found (get bytes_eq index.now)) from.now) }
{
    let mut vertices = Vec::new(alloc);
    for id in from {
        vertices.push(end_of(index, *id))?;
    }
    Ok(vertices)
}

fn first_edges(alloc: Global, count: usize) -> Result<Vec<EdgeId>, AllocError>
    ensures { IfOk result (λ ids. edge_places ids.items ≡ range_with_len 0 count) }
{
    let mut ids = Vec::new(alloc);
    for index in 0..count {
        ids.push(EdgeId { index })?;
    }
    Ok(ids)
}

/// The edges and vertices of a graph.
#[derive(Drop)]
struct Flow {
    edges: Vec<EdgeNode>,
    live: Vec<EdgeId>,
    vertices: Vec<CfgEnd>,
}

fn flow_of(alloc: Global, index: &Index, cfg: &Option<Cfg>) -> Result<Flow, AllocError>
    requires edges { AllByRecursion (HasEnds (get bytes_eq index.now)) (cfg_edges cfg.now) }
    requires vertices { AllByRecursion (λ id. IsEnd (get bytes_eq index.now id)) (cfg_vertices cfg.now) }
    ensures edges { IfOk result (λ f. f.edges.items ≡ map (edge_found (get bytes_eq index.now)) (cfg_edges cfg.now)) }
    ensures live { IfOk result (λ f. edge_places f.live.items ≡ range_with_len 0 (length (cfg_edges cfg.now))) }
    ensures vertices { IfOk result (λ f. f.vertices.items ≡ map (end_found (get bytes_eq index.now)) (cfg_vertices cfg.now)) }
{
    match cfg {
        None => Ok(Flow {
            edges: Vec::new(alloc),
            live: Vec::new(alloc),
            vertices: Vec::new(alloc),
        }),
        Some(cfg) => Ok(Flow {
            edges: edges_of(alloc, index, cfg.edges.as_slice())?,
            live: first_edges(alloc, cfg.edges.len())?,
            vertices: vertices_of(alloc, index, cfg.vertices.as_slice())?,
        }),
    }
}

/// The arena of a draft, with what its references name.
pub fn linked(alloc: Global, draft: Draft, index: &Index, ir: &Ir) -> Result<Arena, AllocError>
    requires payloads { length draft.payloads.items ≡ length draft.arena.symbols.items }
    requires modules { length ir.now.modules ≡ length draft.arena.modules.items }
    requires edges { AllByRecursion (HasEnds (get bytes_eq index.now)) (cfg_edges ir.now.cfg) }
    requires vertices { AllByRecursion (λ id. IsEnd (get bytes_eq index.now id)) (cfg_vertices ir.now.cfg) }
    ensures { IfOk result (λ a. Linked (get bytes_eq index.now) ir.now draft.payloads.items (arenas_of draft.arena) (arenas_of a)) }
{
    let Draft {
        mut arena,
        payloads,
    } = draft;
    link_symbols(index, payloads.as_slice(), &mut arena.symbols);
    link_entries(index, ir.modules.as_slice(), &mut arena.modules);
    let Flow {
        edges,
        live,
        vertices,
    } = flow_of(alloc, index, &ir.cfg)?;
    arena.edges = edges;
    arena.live = live;
    arena.vertices = vertices;
    Ok(arena)
}
