//! The edges and tables of a module that was rewritten are repaired.

ghost use Rattle.std.specs.Prelude.{◌≡◌, ◌<◌, length, IfOk, OnErr, OnOk};
ghost use Rattle.aux_tables.specs.ModuleTables.{tables_of};
ghost use Rattle.edge_repair.specs.Repaired.{repaired};
ghost use Rattle.graph_rewrite.specs.Applied.{IsApplied, WasApplied};
ghost use Rattle.graph_rewrite.specs.Moved.{mended};
ghost use Rattle.gt_model.specs.declared.ir.Ir.{Ir as IrOf};
ghost use Rattle.gt_model.specs.declared.modules.Module.{Module as ModuleOf};
ghost use Rattle.node_arena.specs.Arenas.{module_at};
ghost use Rattle.node_arena.specs.Plain.{ir_of, plain_module};
ghost use Rattle.sym_expr.specs.declared.patches.PatchTable.{PatchTable as Patches};

use crate::moved::Moved;
use crate::rewriting::graph_of;
use gt_model::{Cfg, CopyIn, Ir, copy_all};
use new_modules::laws::one_module_is_set;
use new_modules::with_module;
use node_arena::laws::modules_are_at_their_ordinals;
use node_arena::{Graph, ModuleId};
use rewritten_links::laws::repaired_irs_are_linked;
use std::alloc::{AllocError, Global};

fn copy_cfg(alloc: Global, cfg: &Option<Cfg>) -> Result<Option<Cfg>, AllocError>
    ensures { IfOk result (λ copy. copy ≡ cfg.now) }
{
    match cfg {
        None => Ok(None),
        Some(cfg) => Ok(Some(cfg.copy_in(alloc)?)),
    }
}

/// The IR of a graph with the edges and tables that a rewriting leaves to be repaired.
fn mended_ir(
    alloc: Global,
    graph: &Graph,
    module: ModuleId,
    moved: &Moved,
) -> Result<Ir, AllocError>
    requires { «module».index < length graph.now.modules }
    ensures { IfOk result (λ ir. ir ≡ mended (ir_of graph.now) «module».index (plain_module graph.now (module_at graph.now «module»)) moved.now) }
{
    modules_are_at_their_ordinals();
    one_module_is_set();
    let ir = graph.to_ir(alloc)?;
    let mut plain = graph.plain_module(alloc, module)?;
    plain.aux = copy_all(alloc, &moved.tables)?;
    let mut ir = with_module(ir, plain);
    ir.cfg = copy_cfg(alloc, &moved.cfg)?;
    Ok(ir)
}

/// Repairs the edges, vertices and tables of a module that `apply` rewrote, by what it moved.
pub fn repair(
    alloc: Global,
    graph: &mut Graph,
    module: ModuleId,
    moved: &Moved,
) -> Result<(), AllocError>
    requires live { «module».index < length graph.old.modules }
    requires applied { WasApplied graph.old «module» moved.now }
    ensures repaired { (ir : IrOf) (m : ModuleOf) (p : Patches) → IsApplied graph.old «module» moved.now ir m p → OnOk result (ir_of graph.new ≡ repaired ir m (tables_of m) p) }
    ensures refused { OnErr result (graph.new ≡ graph.old) }
    ensures live { length graph.new.modules ≡ length graph.old.modules }
{
    modules_are_at_their_ordinals();
    one_module_is_set();
    repaired_irs_are_linked();
    let ir = mended_ir(alloc, graph, module, moved)?;
    let made = graph_of(alloc, &ir)?;
    *graph = made;
    Ok(())
}
