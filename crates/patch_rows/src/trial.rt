//! Patches go into a module of a graph, by `apply` and `repair`.

ghost use Rattle.std.specs.Prelude.{◌≡◌, ◌<◌, [], None, length, OnOk, IfOk};
ghost use Rattle.gt_model.specs.Ordered.{ordered};
ghost use Rattle.ir_check.specs.Faults.{bad_places};
ghost use Rattle.module_program.specs.Graphs.{formed_at};
ghost use Rattle.node_arena.specs.Arenas.{module_at};
ghost use Rattle.node_arena.specs.Plain.{ir_of, plain_module};
ghost use Rattle.sym_expr.specs.Modules.{loaded_intervals};
ghost use Rattle.sym_expr.specs.TableOk.{table_ok};
ghost use Rattle.taken_ids.specs.Faults.{id_fault};

use crate::loading::Loaded;
use crate::said::moved_text;
use crate::stop::Stop;
use gr_base::Bytes;
use graph_rewrite::{apply, repair};
use gt_model::Ir;
use gt_write::write_file;
use new_irs::repaired_ir;
use node_arena::{Graph, ModuleId};
use patch_table::read_patches;
use std::alloc::Global;
use sym_expr::PatchTable;

/// What was moved, in words, and the graph's file afterwards.
#[derive(Drop)]
pub struct Trial {
    pub said: String,
    pub file: Bytes,
    pub wanted: Bytes,
}

fn file_of(alloc: Global, ir: &Ir) -> Result<Bytes, Stop>
    requires { ordered ir.now }
{
    if ir.version < 256 {
        Ok(write_file(alloc, ir)?)
    } else {
        Err(Stop::File)
    }
}

/// The words of what patches move in a module of a graph, which is then repaired.
fn patch(
    alloc: Global,
    graph: &mut Graph,
    id: ModuleId,
    patches: &PatchTable,
) -> Result<String, Stop>
    requires live { id.index < length graph.old.modules }
    requires formed { formed_at graph.old id }
    requires placed { let m = plain_module graph.old (module_at graph.old id) in bad_places (loaded_intervals m) m.aux ≡ [] }
    requires accepted { table_ok (plain_module graph.old (module_at graph.old id)) patches.now }
    ensures { OnOk result (id_fault (ir_of graph.old) (plain_module graph.old (module_at graph.old id)) patches.now ≡ None) }
{
    let moved = apply(alloc, graph, id, patches)?;
    repair(alloc, graph, id, &moved)?;
    Ok(moved_text(alloc, &moved)?)
}

/// The trial of a module whose patches are read.
fn tried(alloc: Global, loaded: &Loaded, patches: &PatchTable) -> Result<Trial, Stop>
    requires live { loaded.now.id.index < length loaded.now.graph.modules }
    requires formed { formed_at loaded.now.graph loaded.now.id }
    requires placed { let m = plain_module loaded.now.graph (module_at loaded.now.graph loaded.now.id) in bad_places (loaded_intervals m) m.aux ≡ [] }
    requires accepted { table_ok (plain_module loaded.now.graph (module_at loaded.now.graph loaded.now.id)) patches.now }
{
    let mut graph = loaded.graph.copy(alloc)?;
    let said = patch(alloc, &mut graph, loaded.id, patches)?;
    let ir = graph.to_ir(alloc)?;
    let file = file_of(alloc, &ir)?;
    let wanted = repaired_ir(alloc, &loaded.graph, loaded.id, patches)?;
    let wanted = file_of(alloc, &wanted)?;
    Ok(Trial { said, file, wanted })
}

/// The trial of patch text in a module.
pub fn trial_of(alloc: Global, loaded: &Loaded, text: &str) -> Result<Trial, Stop>
    requires live { loaded.now.id.index < length loaded.now.graph.modules }
    requires formed { formed_at loaded.now.graph loaded.now.id }
    requires placed { let m = plain_module loaded.now.graph (module_at loaded.now.graph loaded.now.id) in bad_places (loaded_intervals m) m.aux ≡ [] }
{
    match read_patches(alloc, text.as_bytes(), &loaded.graph, loaded.id) {
        Ok(patches) => tried(alloc, loaded, &patches),
        Err(_) => Err(Stop::Patches),
    }
}
