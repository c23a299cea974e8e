//! The check of the expressions.

ghost use Rattle.std.specs.Prelude.{◌≡◌, ◌<◌, [], length, map, find, not, ⊤};
ghost use Rattle.std.specs.Str.{bytes_eq};
ghost use Rattle.indexmap.specs.IndexMap.{get};
ghost use Rattle.gt_model.specs.Ordered.{ordered_exprs};
ghost use Rattle.node_arena.specs.Arenas.{module_at};
ghost use Rattle.node_arena.specs.Plain.{plain_module};
ghost use Rattle.aux_tables.specs.ModuleTables.{tables_of};
ghost use Rattle.sym_expr.specs.Modules.{in_order};
ghost use Rattle.sym_expr.specs.Tables.{expr_size};
ghost use Rattle.ir_check.specs.Along.{fault_along, interval_with, word_along};
ghost use Rattle.ir_check.specs.AtGraph.{faults_at};
ghost use Rattle.ir_check.specs.Faults.{fault_of, faults_of_exprs, first, is_plain};
ghost use Rattle.ir_check.specs.Outcomes.{Ends};
ghost use Rattle.ir_check.specs.Part.{IsPart};
ghost use Rattle.ir_check.specs.Sites.{aim_in};
ghost use Rattle.ir_check.specs.Spans.{first_in, span_of, AreIntervals};

use crate::aims::aims_of;
use crate::operands::{after, covering, is_operand, word_of};
use crate::order::is_code;
use crate::part::LoadedPart;
use crate::profile::Plain;
use crate::span::Span;
use crate::targets::names_bad;
use aux_tables::ProgramTables;
use gr_base::End;
use gt_model::{Block, Expr};
use indexmap::IndexMap;
use node_arena::{CheckFault, Graph, IntervalId, IntervalNode, ModuleId};
use std::alloc::Global;
use sym_expr::Aim;
use uuid::Uuid;

/// What expressions are looked up in: what symbols name, and the sizes.
#[derive(Drop)]
struct Names {
    aims: IndexMap<Uuid, Aim>,
    tables: ProgramTables,
}

fn is_plain(plain: &Plain, flag: i32) -> bool
    ensures { result ≡ is_plain plain.now flag }
{
    match plain {
        Plain::All => true,
        Plain::These(flags) => flags.as_slice().contains(&flag),
    }
}

/// The first flag of the expression that isn't plain.
fn strange_flag(plain: &Plain, expr: &Expr) -> Option<i32>
    ensures { result ≡ find (λ flag. not (is_plain plain.now flag)) expr.now.flags }
{
    expr.flags
        .as_slice()
        .iter()
        .copied()
        .find(|flag| !is_plain(plain, *flag))
}

/// The word of an expression in code, and 0 in data.
fn word_along(node: &IntervalNode, expr: &Expr, home: &Option<Block>) -> u32
    ensures { result ≡ word_along (interval_with node.now []) expr.now home.now }
{
    match home {
        Some(block) if is_code(block) => word_of(node, expr.at),
        _ => 0,
    }
}

/// What is wrong with an expression, before the rest, that stands in this block.
fn expr_fault(
    plain: &Plain,
    names: &Names,
    node: &IntervalNode,
    expr: &Expr,
    rest: &[Expr],
    home: &Option<Block>,
) -> Option<CheckFault>
    ensures { result ≡ fault_along plain.now (aim_in (get bytes_eq names.now.aims)) (expr_size names.now.tables node.now.uuid) (interval_with node.now []) expr.now rest.now home.now }
{
    if let Some(flag) = strange_flag(plain, expr) {
        return Some(CheckFault::Flag(node.uuid, expr.at, flag));
    }
    if !is_operand(&names.tables, node, expr, rest, home) {
        return Some(CheckFault::BadOperand(node.uuid, expr.at));
    }
    let size = names.tables.size_at(&node.uuid, expr.at);
    if names_bad(&names.aims, size, word_along(node, expr, home), expr.value) {
        return Some(CheckFault::BadTarget(node.uuid, expr.at));
    }
    None
}

/// The first thing that is wrong with the expressions of an interval.
fn interval_fault(
    plain: &Plain,
    names: &Names,
    node: &IntervalNode,
    span: &Span,
) -> Option<CheckFault>
    requires ascending { ordered_exprs node.now.exprs }
    requires ordered { span.now.ordered ≡ in_order span.now.blocks }
    ensures { result ≡ first_in (fault_of plain.now (aim_in (get bytes_eq names.now.aims)) (expr_size names.now.tables node.now.uuid) (interval_with node.now span.now.blocks)) node.now.exprs }
{
    let mut blocks = span.ordered.as_slice();
    let exprs = node.exprs.as_slice();
    for (k, expr) in exprs.iter().enumerate() {
        blocks = after(blocks, expr.at);
        let home = covering(blocks, expr.at);
        if let Some(fault) = expr_fault(plain, names, node, expr, &exprs[k + 1..], &home) {
            return Some(fault);
        }
    }
    None
}

/// The first thing that is wrong with the expressions of the intervals.
fn exprs_fault(
    graph: &Graph,
    plain: &Plain,
    names: &Names,
    ids: &[IntervalId],
    spans: &[Span],
) -> Option<CheckFault>
    requires live { AreIntervals graph.now ids.now }
    requires spans { spans.now ≡ map (span_of graph.now) ids.now }
    ensures { result ≡ first_in (faults_at plain.now (aim_in (get bytes_eq names.now.aims)) names.now.tables graph.now) ids.now }
{
    for (k, id) in ids.iter().enumerate() {
        if let Some(fault) = interval_fault(plain, names, graph.interval(*id), &spans[k]) {
            return Some(fault);
        }
    }
    None
}

/// Whether nothing is wrong with the expressions of what is loaded, of which the tables say this.
pub(crate) fn check_exprs(
    alloc: Global,
    graph: &Graph,
    module: ModuleId,
    part: &LoadedPart,
    tables: ProgramTables,
    plain: &Plain,
) -> Result<(), End<CheckFault>>
    requires live { «module».index < length graph.now.modules }
    requires part { IsPart graph.now «module» part.now }
    requires intervals { AreIntervals graph.now part.now.intervals.items }
    requires said { tables ≡ tables_of (plain_module graph.now (module_at graph.now «module»)) }
    ensures { Ends result (first (faults_of_exprs plain.now (plain_module graph.now (module_at graph.now «module»)) (tables_of (plain_module graph.now (module_at graph.now «module»))))) (λ _. ⊤) }
{
    let aims = aims_of(alloc, graph, module, &part.sites)?;
    let names = Names { aims, tables };
    let intervals = part.intervals.as_slice();
    match exprs_fault(graph, plain, &names, intervals, part.spans.as_slice()) {
        Some(fault) => Err(End::Fault(fault)),
        None => Ok(()),
    }
}
