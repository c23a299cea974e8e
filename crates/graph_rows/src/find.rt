ghost use Rattle.std.specs.Prelude.{◌≡◌, ◌<◌, length, Contains, IfOk};
ghost use Rattle.node_arena.specs.Arenas.{block_at, interval_at};
ghost use Rattle.node_arena.specs.Sound.{IsVertex, module_of_block};

use crate::stop::Stop;
use gt_model::Body;
use node_arena::{
    BlockId, CfgEnd, EdgeId, Graph, IntervalId, ModuleId, NodeRef, SectionId, SymbolId,
};
use uuid::Uuid;

/// The first module.
pub fn first_module(graph: &Graph) -> Result<ModuleId, Stop>
    ensures { IfOk result (λ m. m.index < length graph.now.modules) }
{
    match graph.module_at(0) {
        Some(module) => Ok(module),
        None => Err(Stop::Refused),
    }
}

pub fn section_of(graph: &Graph, id: &Uuid) -> Result<SectionId, Stop>
    ensures { IfOk result (λ s. s.index < length graph.now.sections) }
{
    match graph.find(id) {
        Some(NodeRef::Section(section)) => Ok(section),
        _ => Err(Stop::Refused),
    }
}

pub fn interval_of(graph: &Graph, id: &Uuid) -> Result<IntervalId, Stop>
    ensures { IfOk result (λ i. i.index < length graph.now.intervals) }
{
    match graph.find(id) {
        Some(NodeRef::Interval(interval)) => Ok(interval),
        _ => Err(Stop::Refused),
    }
}

pub fn block_of(graph: &Graph, id: &Uuid) -> Result<BlockId, Stop>
    ensures { IfOk result (λ b. b.index < length graph.now.blocks) }
{
    match graph.find(id) {
        Some(NodeRef::Block(block)) => Ok(block),
        _ => Err(Stop::Refused),
    }
}

pub fn symbol_of(graph: &Graph, id: &Uuid) -> Result<SymbolId, Stop>
    ensures { IfOk result (λ s. s.index < length graph.now.symbols) }
{
    match graph.find(id) {
        Some(NodeRef::Symbol(symbol)) => Ok(symbol),
        _ => Err(Stop::Refused),
    }
}

/// A code block or a proxy block.
pub fn vertex_of(graph: &Graph, id: &Uuid) -> Result<CfgEnd, Stop>
    ensures { IfOk result (λ v. IsVertex graph.now v) }
{
    match graph.find(id) {
        Some(NodeRef::Proxy(proxy)) => Ok(CfgEnd::Proxy(proxy)),
        Some(NodeRef::Block(block)) => match graph.block(block).body {
            Body::Code { .. } => Ok(CfgEnd::Block(block)),
            _ => Err(Stop::Refused),
        },
        _ => Err(Stop::Refused),
    }
}

/// The edge at a place among those of the graph.
pub fn edge_at(graph: &Graph, place: u64) -> Result<EdgeId, Stop>
    ensures { IfOk result (Contains graph.now.live) }
{
    match graph.edges().get(place as usize) {
        Some(edge) => Ok(*edge),
        None => Err(Stop::Refused),
    }
}

/// The interval of a block.
#[tactic(auto, using(crate::proofs::Parents::interval_is_live))]
fn interval_around(graph: &Graph, block: BlockId) -> IntervalId
    requires { block.index < length graph.now.blocks }
    ensures value { result ≡ (block_at graph.now block).interval }
    ensures live { result.index < length graph.now.intervals }
{
    graph.block(block).interval
}

/// The section of an interval.
#[tactic(auto, using(crate::proofs::Parents::section_is_live))]
fn section_around(graph: &Graph, interval: IntervalId) -> SectionId
    requires { interval.index < length graph.now.intervals }
    ensures value { result ≡ (interval_at graph.now interval).section }
    ensures live { result.index < length graph.now.sections }
{
    graph.interval(interval).section
}

/// The module of a block.
pub fn module_around(graph: &Graph, block: BlockId) -> ModuleId
    requires { block.index < length graph.now.blocks }
    ensures { result.index ≡ module_of_block graph.now block }
{
    let interval = interval_around(graph, block);
    let section = section_around(graph, interval);
    graph.section(section).module
}
