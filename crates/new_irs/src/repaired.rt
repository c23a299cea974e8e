//! The IR that patches make of an IR.

ghost use Rattle.std.specs.Prelude.{◌≡◌, ◌<◌, [], length, None, IfOk};
ghost use Rattle.aux_tables.specs.ModuleTables.{tables_of};
ghost use Rattle.edge_repair.specs.Repaired.{repaired};
ghost use Rattle.gt_model.specs.Ordered.{ordered};
ghost use Rattle.ir_check.specs.Faults.{bad_places};
ghost use Rattle.module_program.specs.Graphs.{formed_at};
ghost use Rattle.node_arena.specs.Arenas.{module_at};
ghost use Rattle.node_arena.specs.Plain.{ir_of, plain_module};
ghost use Rattle.sym_expr.specs.Modules.{loaded_intervals};
ghost use Rattle.sym_expr.specs.TableOk.{table_ok};
ghost use Rattle.taken_ids.specs.Faults.{id_fault};

use gt_model::Ir;
use module_program::program_of;
use new_edges::repaired_cfg;
use new_modules::laws::one_module_is_set;
use new_modules::{rewritten_module, with_module};
use new_tables::repaired_tables;
use node_arena::laws::modules_are_at_their_ordinals;
use node_arena::{Graph, ModuleId};
use rewritten_links::laws::repaired_irs_are_linked;
use std::alloc::{AllocError, Global};
use sym_expr::PatchTable;
use taken_ids::laws::free_without_fault;

/// The IR of a graph with patches in one of its modules, its edges and tables repaired.
pub fn repaired_ir(
    alloc: Global,
    graph: &Graph,
    module: ModuleId,
    patches: &PatchTable,
) -> Result<Ir, AllocError>
    requires live { «module».index < length graph.now.modules }
    requires formed { formed_at graph.now «module» }
    requires accepted { table_ok (plain_module graph.now (module_at graph.now «module»)) patches.now }
    requires free { id_fault (ir_of graph.now) (plain_module graph.now (module_at graph.now «module»)) patches.now ≡ None }
    // No Place of a table is past the size of what it names, so that no two go to one.
    requires placed { let m = plain_module graph.now (module_at graph.now «module») in bad_places (loaded_intervals m) m.aux ≡ [] }
    ensures made { let m = plain_module graph.now (module_at graph.now «module») in IfOk result (λ ir. ir ≡ repaired (ir_of graph.now) m (tables_of m) patches.now) }
    ensures order { IfOk result ordered }
{
    free_without_fault();
    modules_are_at_their_ordinals();
    one_module_is_set();
    repaired_irs_are_linked();
    let program = program_of(alloc, graph, module, patches)?;
    let mut made = rewritten_module(alloc, graph, module, &program, patches)?;
    let tables = repaired_tables(alloc, graph, module, &program, patches)?;
    let cfg = repaired_cfg(alloc, graph, module, &program, patches)?;
    let ir = graph.to_ir(alloc)?;
    made.aux = tables;
    let mut ir = with_module(ir, made);
    ir.cfg = cfg;
    Ok(ir)
}
