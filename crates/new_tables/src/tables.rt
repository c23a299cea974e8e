//! All tables of a module that is repaired.

ghost use Rattle.std.specs.Prelude.{◌≡◌, ◌<◌, [], Contains, None, length, map, IfOk};
ghost use Rattle.aux_tables.specs.ModuleTables.{tables_of};
ghost use Rattle.edge_repair.specs.Repaired.{repaired_table};
ghost use Rattle.gt_model.specs.declared.tables.Aux.{Aux as AuxOf};
ghost use Rattle.ir_check.specs.Faults.{bad_places};
ghost use Rattle.module_program.specs.Graphs.{formed_at, patched_at};
ghost use Rattle.new_tables.specs.Repairing.{IsReady, StaysApart};
ghost use Rattle.node_arena.specs.Arenas.{module_at};
ghost use Rattle.node_arena.specs.Plain.{ir_of, plain_module};
ghost use Rattle.sym_expr.specs.Modules.{loaded_intervals};
ghost use Rattle.sym_expr.specs.WellMade.{well_made};
ghost use Rattle.taken_ids.specs.Faults.{id_fault};

use crate::repair::Repair;
use crate::table::new_table;
use function_tables::LaterParts;
use gr_base::Seq;
use gt_model::Aux;
use moved_places::Moves;
use node_arena::{Graph, ModuleId};
use rewritten_links::laws::places_stay_apart;
use std::alloc::{AllocError, Global};
use sym_expr::{PatchTable, Program};

/// The tables of a module, each repaired.
fn new_tables(alloc: Global, repair: &Repair<'_>) -> Result<Seq<Aux>, AllocError>
    requires ready { IsReady repair.now }
    requires apart { (a : AuxOf) → Contains repair.now.module.now.aux a → StaysApart repair.now.module.now repair.now.patches.now a }
    ensures { IfOk result (λ made. made ≡ map (repaired_table repair.now.module.now (tables_of repair.now.module.now) repair.now.patches.now) repair.now.module.now.aux) }
{
    let mut made = Vec::new(alloc);
    for table in repair.module.aux.as_slice() {
        let table = new_table(alloc, repair, table)?;
        made.push(table)?;
    }
    Ok(Seq::from_vec(made))
}

/// The tables of a module of a graph once it is repaired, where no two Places of one go to one.
fn apart_tables(
    alloc: Global,
    graph: &Graph,
    module: ModuleId,
    program: &Program,
    patches: &PatchTable,
) -> Result<Seq<Aux>, AllocError>
    requires live { «module».index < length graph.now.modules }
    requires program { program.now ≡ patched_at graph.now «module» patches.now }
    requires well { well_made program.now }
    // No identifier that the patches derive was taken.
    requires free { id_fault (ir_of graph.now) (plain_module graph.now (module_at graph.now «module»)) patches.now ≡ None }
    // No two Places of a table go to one.
    requires apart { (a : AuxOf) → Contains (plain_module graph.now (module_at graph.now «module»)).aux a → StaysApart (plain_module graph.now (module_at graph.now «module»)) patches.now a }
    ensures { IfOk result (λ made. let m = plain_module graph.now (module_at graph.now «module») in made ≡ map (repaired_table m (tables_of m) patches.now) m.aux) }
{
    let plain = graph.plain_module(alloc, module)?;
    let moves = Moves::new(alloc, &plain, program)?;
    let later = LaterParts::new(alloc, &plain, program)?;
    let repair = Repair {
        module: &plain,
        patches,
        moves,
        later,
    };
    let made = new_tables(alloc, &repair)?;
    Ok(made)
}

/// The tables of a module of a graph once it is repaired, where this is its program with patches.
pub fn repaired_tables(
    alloc: Global,
    graph: &Graph,
    module: ModuleId,
    program: &Program,
    patches: &PatchTable,
) -> Result<Seq<Aux>, AllocError>
    requires live { «module».index < length graph.now.modules }
    requires formed { formed_at graph.now «module» }
    // No Place is past what it names.
    requires good { let m = plain_module graph.now (module_at graph.now «module») in bad_places (loaded_intervals m) m.aux ≡ [] }
    requires program { program.now ≡ patched_at graph.now «module» patches.now }
    requires well { well_made program.now }
    // No identifier that the patches derive was taken.
    requires free { id_fault (ir_of graph.now) (plain_module graph.now (module_at graph.now «module»)) patches.now ≡ None }
    ensures { IfOk result (λ made. let m = plain_module graph.now (module_at graph.now «module») in made ≡ map (repaired_table m (tables_of m) patches.now) m.aux) }
{
    places_stay_apart();
    apart_tables(alloc, graph, module, program, patches)
}
