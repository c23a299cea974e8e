//! What a rewriting moves, and what becomes of the edges and tables that speak of it.

ghost use Rattle.std.specs.Prelude.{◌≡◌, ◌<◌, [], None, length, IfOk};
ghost use Rattle.graph_rewrite.specs.Moved.{moved_of, with_repairs};
ghost use Rattle.ir_check.specs.Faults.{bad_places};
ghost use Rattle.module_program.specs.Graphs.{formed_at, patched_at};
ghost use Rattle.node_arena.specs.Arenas.{module_at};
ghost use Rattle.node_arena.specs.Plain.{ir_of, plain_module};
ghost use Rattle.sym_expr.specs.Modules.{loaded_intervals};
ghost use Rattle.sym_expr.specs.WellMade.{well_made};
ghost use Rattle.taken_ids.specs.Faults.{id_fault};

use gr_base::Seq;
use gt_model::{Aux, Cfg};
use moved_modules::{Moved as Moves, MovedBlock, MovedInterval, NewFunction, moved_in};
use new_edges::repaired_cfg;
use new_tables::repaired_tables;
use node_arena::{Graph, ModuleId};
use std::alloc::{AllocError, Global};
use sym_expr::{PatchTable, Program};

/// Blocks and intervals in which words are inserted, in order, functions that are new, and what `repair` puts in the graph.
#[derive(Debug, Drop)]
pub struct Moved {
    pub blocks: Seq<MovedBlock>,
    pub intervals: Seq<MovedInterval>,
    pub functions: Seq<NewFunction>,
    /// The edges and vertices of the repaired IR.
    pub cfg: Option<Cfg>,
    /// The tables of the repaired module.
    pub tables: Seq<Aux>,
}

/// What patches move of a module of a graph that has this program with them.
pub(crate) fn moved_by(
    alloc: Global,
    graph: &Graph,
    module: ModuleId,
    program: &Program,
    patches: &PatchTable,
) -> Result<Moved, AllocError>
    requires live { «module».index < length graph.now.modules }
    requires formed { formed_at graph.now «module» }
    requires placed { let m = plain_module graph.now (module_at graph.now «module») in bad_places (loaded_intervals m) m.aux ≡ [] }
    requires program { program.now ≡ patched_at graph.now «module» patches.now }
    requires well { well_made program.now }
    requires free { id_fault (ir_of graph.now) (plain_module graph.now (module_at graph.now «module»)) patches.now ≡ None }
    ensures { IfOk result (λ moved. moved ≡ moved_of (ir_of graph.now) (plain_module graph.now (module_at graph.now «module»)) patches.now) }
{
    let plain = graph.plain_module(alloc, module)?;
    let moves = moved_in(alloc, &plain, program, patches)?;
    let cfg = repaired_cfg(alloc, graph, module, program, patches)?;
    let tables = repaired_tables(alloc, graph, module, program, patches)?;
    Ok(Moved {
        blocks: moves.blocks,
        intervals: moves.intervals,
        functions: moves.functions,
        cfg,
        tables,
    })
}
