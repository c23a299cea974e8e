ghost use Rattle.std.specs.Prelude.{◌≡◌, ◌<◌, ◌++◌, length, IfOk, OnOk};
ghost use Rattle.gt_model.specs.Nodes.{nodes, ids};
ghost use Rattle.module_program.specs.Graphs.{formed_at};
ghost use Rattle.node_arena.specs.Arenas.{module_at};
ghost use Rattle.node_arena.specs.Plain.{ir_of, plain_module};
ghost use Rattle.sym_expr.specs.TableOk.{ids_ok, table_ok};
ghost use Rattle.taken_ids.specs.Answers.{Tells};
ghost use Rattle.taken_ids.specs.Faults.{id_fault};
ghost use Rattle.taken_ids.specs.Named.{tables_ids};

use crate::derived::derived_ids;
use crate::fault::RewriteFault;
use crate::laws::free_without_fault;
use crate::named::push_tables;
use crate::nodes::node_ids;
use crate::taken::check_free;
use gr_base::End;
use gt_model::{Aux, Ir};
use module_program::program_of;
use node_arena::{Graph, ModuleId};
use std::alloc::{AllocError, Global};
use sym_expr::PatchTable;
use uuid::Uuid;

/// The identifiers of an IR's nodes, and those that tables name.
fn taken_ids(alloc: Global, ir: &Ir, tables: &[Aux]) -> Result<Vec<Uuid>, AllocError>
    ensures { IfOk result (λ taken. taken.items ≡ ids (nodes ir.now) ++ tables_ids tables.now) }
{
    let mut taken = node_ids(alloc, ir)?;
    push_tables(alloc, &mut taken, tables)?;
    Ok(taken)
}

/// Whether the identifiers that patches derive in a module are free, or the first that isn't.
pub fn check_ids(
    alloc: Global,
    graph: &Graph,
    module: ModuleId,
    patches: &PatchTable,
) -> Result<(), End<RewriteFault>>
    requires live { «module».index < length graph.now.modules }
    requires formed { formed_at graph.now «module» }
    requires accepted { table_ok (plain_module graph.now (module_at graph.now «module»)) patches.now }
    ensures fault { Tells result (id_fault (ir_of graph.now) (plain_module graph.now (module_at graph.now «module»)) patches.now) }
    ensures free { OnOk result (ids_ok (ir_of graph.now) (plain_module graph.now (module_at graph.now «module»)) patches.now) }
{
    free_without_fault();
    let program = program_of(alloc, graph, module, patches)?;
    let ir = graph.to_ir(alloc)?;
    let node = graph.module(module);
    let derived = derived_ids(alloc, &node.uuid, &program, patches)?;
    let taken = taken_ids(alloc, &ir, node.aux.as_slice())?;
    check_free(alloc, taken.as_slice(), derived.as_slice())?;
    Ok(())
}
