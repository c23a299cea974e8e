ghost use Rattle.std.specs.Prelude.{◌≡◌, map, [], ◌∷◌};
ghost use Rattle.std.specs.List.{flat_map};
ghost use Rattle.std.specs.Option.{option_to_list};
ghost use Rattle.gt_model.specs.References.{reference, SymbolOf, Vertex, symbol_references, symbols_of, expr_references, interval_references, section_references, module_references, references_from, edge_references, cfg_references, references};
ghost use Rattle.node_arena.specs.Checking.{ChecksAll, Linkable, wanted_of};

use crate::arena::Arena;
use crate::fault::CheckFault;
use crate::ids::{ModuleId, NodeRef};
use crate::landing::{Wanted, check_reference};
use gt_model::{Cfg, Edge, Expr, ExprValue, Interval, Ir, Module, Payload, Section, Symbol};
use indexmap::IndexMap;
use uuid::Uuid;

type Index = IndexMap<Uuid, NodeRef>;

fn check_optional(
    arena: &Arena,
    index: &Index,
    from: Uuid,
    wanted: Wanted,
    to: Option<Uuid>,
) -> Result<(), CheckFault>
    requires { Linkable arena.now index.now }
    ensures { ChecksAll arena.now index.now (map (reference from (wanted_of wanted)) (option_to_list to)) result }
{
    match to {
        None => Ok(()),
        Some(to) => check_reference(arena, index, from, wanted, to),
    }
}

fn check_symbol(
    arena: &Arena,
    index: &Index,
    parent: ModuleId,
    symbol: &Symbol,
) -> Result<(), CheckFault>
    requires { Linkable arena.now index.now }
    ensures { ChecksAll arena.now index.now (symbol_references parent.index symbol.now) result }
{
    match symbol.payload {
        Payload::Referent(to) => check_reference(
            arena,
            index,
            symbol.uuid,
            Wanted::ReferentOf(parent),
            to,
        ),
        _ => Ok(()),
    }
}

fn check_expr(
    arena: &Arena,
    index: &Index,
    parent: ModuleId,
    from: Uuid,
    expr: &Expr,
) -> Result<(), CheckFault>
    requires { Linkable arena.now index.now }
    ensures { ChecksAll arena.now index.now (expr_references parent.index from expr.now) result }
{
    let wanted = Wanted::SymbolOf(parent);
    match expr.value {
        ExprValue::Nothing => Ok(()),
        ExprValue::AddrConst { symbol, .. } => check_optional(arena, index, from, wanted, symbol),
        ExprValue::AddrAddr { first, second, .. } => {
            check_optional(arena, index, from, wanted, first)?;
            check_optional(arena, index, from, wanted, second)
        }
    }
}

fn check_interval(
    arena: &Arena,
    index: &Index,
    parent: ModuleId,
    interval: &Interval,
) -> Result<(), CheckFault>
    requires { Linkable arena.now index.now }
    ensures { ChecksAll arena.now index.now (interval_references parent.index interval.now) result }
{
    for expr in interval.exprs.as_slice() {
        check_expr(arena, index, parent, interval.uuid, expr)?;
    }
    Ok(())
}

fn check_section(
    arena: &Arena,
    index: &Index,
    parent: ModuleId,
    section: &Section,
) -> Result<(), CheckFault>
    requires { Linkable arena.now index.now }
    ensures { ChecksAll arena.now index.now (section_references parent.index section.now) result }
{
    for interval in section.intervals.as_slice() {
        check_interval(arena, index, parent, interval)?;
    }
    Ok(())
}

fn check_symbols(
    arena: &Arena,
    index: &Index,
    parent: ModuleId,
    symbols: &[Symbol],
) -> Result<(), CheckFault>
    requires { Linkable arena.now index.now }
    ensures { ChecksAll arena.now index.now (flat_map (symbol_references parent.index) symbols.now) result }
{
    for symbol in symbols {
        check_symbol(arena, index, parent, symbol)?;
    }
    Ok(())
}

fn check_sections(
    arena: &Arena,
    index: &Index,
    parent: ModuleId,
    sections: &[Section],
) -> Result<(), CheckFault>
    requires { Linkable arena.now index.now }
    ensures { ChecksAll arena.now index.now (flat_map (section_references parent.index) sections.now) result }
{
    for section in sections {
        check_section(arena, index, parent, section)?;
    }
    Ok(())
}

/// Whether the references of a module are right, or the first one that isn't.
fn check_module(
    arena: &Arena,
    index: &Index,
    id: ModuleId,
    module: &Module,
) -> Result<(), CheckFault>
    requires { Linkable arena.now index.now }
    ensures { ChecksAll arena.now index.now (module_references id.index «module».now) result }
{
    check_optional(arena, index, module.uuid, Wanted::EntryOf(id), module.entry)?;
    check_symbols(arena, index, id, module.symbols.as_slice())?;
    check_sections(arena, index, id, module.sections.as_slice())
}

/// Whether the references of modules are right, or the first one that isn't.
fn check_modules(arena: &Arena, index: &Index, modules: &[Module]) -> Result<(), CheckFault>
    requires { Linkable arena.now index.now }
    ensures { ChecksAll arena.now index.now (references_from 0 modules.now) result }
{
    for (k, module) in modules.iter().enumerate() {
        check_module(arena, index, ModuleId { index: k }, module)?;
    }
    Ok(())
}

fn check_edge(arena: &Arena, index: &Index, from: Uuid, edge: &Edge) -> Result<(), CheckFault>
    requires { Linkable arena.now index.now }
    ensures { ChecksAll arena.now index.now (edge_references from edge.now) result }
{
    check_reference(arena, index, from, Wanted::Vertex, edge.source)?;
    check_reference(arena, index, from, Wanted::Vertex, edge.target)
}

fn check_edges(arena: &Arena, index: &Index, from: Uuid, edges: &[Edge]) -> Result<(), CheckFault>
    requires { Linkable arena.now index.now }
    ensures { ChecksAll arena.now index.now (flat_map (edge_references from) edges.now) result }
{
    for edge in edges {
        check_edge(arena, index, from, edge)?;
    }
    Ok(())
}

fn check_vertices(
    arena: &Arena,
    index: &Index,
    from: Uuid,
    vertices: &[Uuid],
) -> Result<(), CheckFault>
    requires { Linkable arena.now index.now }
    ensures { ChecksAll arena.now index.now (flat_map (λ id. reference from Vertex id ∷ []) vertices.now) result }
{
    for id in vertices {
        check_reference(arena, index, from, Wanted::Vertex, *id)?;
    }
    Ok(())
}

fn check_cfg(arena: &Arena, index: &Index, from: Uuid, cfg: &Cfg) -> Result<(), CheckFault>
    requires { Linkable arena.now index.now }
    ensures { ChecksAll arena.now index.now (cfg_references from cfg.now) result }
{
    check_edges(arena, index, from, cfg.edges.as_slice())?;
    check_vertices(arena, index, from, cfg.vertices.as_slice())
}

fn check_flow(arena: &Arena, index: &Index, from: Uuid, cfg: &Option<Cfg>) -> Result<(), CheckFault>
    requires { Linkable arena.now index.now }
    ensures { ChecksAll arena.now index.now (flat_map (cfg_references from) (option_to_list cfg.now)) result }
{
    match cfg {
        None => Ok(()),
        Some(cfg) => check_cfg(arena, index, from, cfg),
    }
}

/// Whether the references of an IR are right, or the first one that isn't.
pub fn check_references(arena: &Arena, index: &Index, ir: &Ir) -> Result<(), CheckFault>
    requires { Linkable arena.now index.now }
    ensures { ChecksAll arena.now index.now (references ir.now) result }
{
    check_modules(arena, index, ir.modules.as_slice())?;
    check_flow(arena, index, ir.uuid, &ir.cfg)
}
