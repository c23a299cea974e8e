//! What the symbols of a module name.

ghost use Rattle.std.specs.Prelude.{◌≡◌, ◌<◌, length, map, IfOk};
ghost use Rattle.std.specs.Option.{option_map_or};
ghost use Rattle.std.specs.Str.{bytes_eq};
ghost use Rattle.indexmap.specs.IndexMap.{get};
ghost use Rattle.node_arena.specs.Arenas.{module_at, symbol_at};
ghost use Rattle.node_arena.specs.Plain.{block_id, plain_payload};
ghost use Rattle.sym_expr.specs.declared.aim.Aim.TheVariants as aims;
ghost use Rattle.ir_check.specs.Keyed.{value_at};
ghost use Rattle.ir_check.specs.Sites.{aim_at, aim_entry, payload_aim};

use crate::index::index_of;
use crate::sites::Site;
use gt_model::Body;
use indexmap::IndexMap;
use node_arena::{BlockId, Graph, ModuleId, NodePayload, SymbolId};
use std::alloc::{AllocError, Global};
use sym_expr::Aim;
use uuid::Uuid;

pub(crate) fn block_id(graph: &Graph, block: BlockId) -> Uuid
    requires { block.index < length graph.now.blocks }
    ensures { result ≡ block_id graph.now block }
{
    match graph.block(block).body {
        Body::Code { uuid, .. } | Body::Data { uuid, .. } => uuid,
        Body::Bare => unreachable!(),
    }
}

fn aim_at(sites: &IndexMap<Uuid, Site>, id: Uuid) -> Aim
    ensures { result ≡ option_map_or aim_at (get bytes_eq sites.now id) aims.Undefined }
{
    match sites.get(&id) {
        None => Aim::Undefined,
        Some(site) if site.code => Aim::Code(site.interval),
        Some(_) => Aim::Data,
    }
}

fn aim_of(graph: &Graph, sites: &IndexMap<Uuid, Site>, symbol: SymbolId) -> Aim
    requires { symbol.index < length graph.now.symbols }
    ensures { result ≡ payload_aim (get bytes_eq sites.now) (plain_payload graph.now (symbol_at graph.now symbol).payload) }
{
    match graph.symbol(symbol).payload {
        NodePayload::Nothing => Aim::Undefined,
        NodePayload::Value(_) => Aim::Number,
        NodePayload::Block(block) => aim_at(sites, block_id(graph, block)),
        NodePayload::Proxy(proxy) => aim_at(sites, *graph.proxy(proxy)),
    }
}

/// What each symbol of a module names, by its identifier.
pub(crate) fn aims_of(
    alloc: Global,
    graph: &Graph,
    of: ModuleId,
    sites: &IndexMap<Uuid, Site>,
) -> Result<IndexMap<Uuid, Aim>, AllocError>
    requires { of.index < length graph.now.modules }
    ensures { IfOk result (λ aims. (id : _) → get bytes_eq aims id ≡ value_at bytes_eq id (map (aim_entry graph.now (get bytes_eq sites.now)) (module_at graph.now of).symbols)) }
{
    let mut entries = Vec::new(alloc);
    for symbol in graph.module(of).symbols.as_slice() {
        let aim = aim_of(graph, sites, *symbol);
        entries.push((graph.symbol(*symbol).uuid, aim))?;
    }
    index_of(alloc, entries.as_slice())
}
