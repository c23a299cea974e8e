//! A module of a graph is rewritten.

ghost use Rattle.std.specs.Prelude.{◌≡◌, ◌<◌, [], length, IfOk, OnErr, OnOk};
ghost use Rattle.aux_tables.specs.ModuleTables.{tables_of};
ghost use Rattle.graph_rewrite.specs.Applied.{IsApplied};
ghost use Rattle.graph_rewrite.specs.Moved.{moved_of};
ghost use Rattle.gt_model.specs.Linked.{linked};
ghost use Rattle.gt_model.specs.Ordered.{ordered};
ghost use Rattle.ir_check.specs.Faults.{bad_places};
ghost use Rattle.module_program.specs.Graphs.{formed_at};
ghost use Rattle.node_arena.specs.Arenas.{module_at};
ghost use Rattle.node_arena.specs.Plain.{ir_of, plain_module};
ghost use Rattle.rewrite.specs.Rewritten.{rewritten};
ghost use Rattle.sym_expr.specs.Modules.{loaded_intervals};
ghost use Rattle.sym_expr.specs.TableOk.{table_ok};
ghost use Rattle.taken_ids.specs.Answers.{Tells};
ghost use Rattle.taken_ids.specs.Faults.{id_fault};

use crate::moved::{Moved, moved_by};
use gr_base::End;
use gt_model::Ir;
use gt_model::laws::linked_without_fault;
use module_program::program_of;
use new_modules::rewritten_ir;
use node_arena::laws::modules_are_at_their_ordinals;
use node_arena::{Graph, ModuleId};
use rewritten_links::laws::{rewritten_irs_are_linked, rewritten_irs_are_ordered};
use std::alloc::{AllocError, Global};
use sym_expr::PatchTable;
use taken_ids::{RewriteFault, check_ids};

/// The graph of an IR whose links are right.
pub(crate) fn graph_of(alloc: Global, ir: &Ir) -> Result<Graph, AllocError>
    requires linked { linked ir.now }
    requires ordered { ordered ir.now }
    ensures { IfOk result (λ graph. ir_of graph ≡ ir.now) }
{
    linked_without_fault();
    match Graph::from_ir(alloc, ir) {
        Ok(graph) => Ok(graph),
        Err(End::Memory) => Err(AllocError),
        Err(End::Fault(_)) => unreachable!(),
    }
}

/// The graph with the rewritten module, and what that moves.
fn rewritten_graph(
    alloc: Global,
    graph: &Graph,
    module: ModuleId,
    patches: &PatchTable,
) -> Result<(Graph, Moved), End<RewriteFault>>
    requires live { «module».index < length graph.now.modules }
    requires formed { formed_at graph.now «module» }
    requires placed { let m = plain_module graph.now (module_at graph.now «module») in bad_places (loaded_intervals m) m.aux ≡ [] }
    requires accepted { table_ok (plain_module graph.now (module_at graph.now «module»)) patches.now }
    ensures fault { Tells result (id_fault (ir_of graph.now) (plain_module graph.now (module_at graph.now «module»)) patches.now) }
    ensures graph { let m = plain_module graph.now (module_at graph.now «module») in IfOk result (λ made. ir_of made.0 ≡ rewritten (ir_of graph.now) m.uuid (tables_of m) patches.now) }
    ensures moved { IfOk result (λ made. made.1 ≡ moved_of (ir_of graph.now) (plain_module graph.now (module_at graph.now «module»)) patches.now) }
{
    rewritten_irs_are_linked();
    rewritten_irs_are_ordered();
    check_ids(alloc, graph, module, patches)?;
    let program = program_of(alloc, graph, module, patches)?;
    let ir = rewritten_ir(alloc, graph, module, &program, patches)?;
    let moved = moved_by(alloc, graph, module, &program, patches)?;
    let made = graph_of(alloc, &ir)?;
    Ok((made, moved))
}

/// Rewrites a module of a graph: patches that it can take insert words in it and bring functions. Its edges and tables
/// stay until `repair`.
pub fn apply(
    alloc: Global,
    graph: &mut Graph,
    module: ModuleId,
    patches: &PatchTable,
) -> Result<Moved, End<RewriteFault>>
    requires live { «module».index < length graph.old.modules }
    requires formed { formed_at graph.old «module» }
    // No Place of a table is past the size of what it names.
    requires placed { let m = plain_module graph.old (module_at graph.old «module») in bad_places (loaded_intervals m) m.aux ≡ [] }
    requires accepted { table_ok (plain_module graph.old (module_at graph.old «module»)) patches.now }
    ensures fault { Tells result (id_fault (ir_of graph.old) (plain_module graph.old (module_at graph.old «module»)) patches.now) }
    ensures graph { let m = plain_module graph.old (module_at graph.old «module») in OnOk result (ir_of graph.new ≡ rewritten (ir_of graph.old) m.uuid (tables_of m) patches.now) }
    ensures moved { IfOk result (λ moved. moved ≡ moved_of (ir_of graph.old) (plain_module graph.old (module_at graph.old «module»)) patches.now) }
    ensures refused { OnErr result (graph.new ≡ graph.old) }
    ensures live { length graph.new.modules ≡ length graph.old.modules }
    // All that `repair` asks.
    ensures applied { IfOk result (λ moved. IsApplied graph.new «module» moved (ir_of graph.old) (plain_module graph.old (module_at graph.old «module»)) patches.now) }
{
    modules_are_at_their_ordinals();
    let (made, moved) = rewritten_graph(alloc, graph, module, patches)?;
    *graph = made;
    Ok(moved)
}
