//! What follows from the definitions alone: each function is its contract.

ghost use Rattle.std.specs.Prelude.{◌≡◌, None};
ghost use Rattle.gt_model.specs.declared.ir.Ir.{Ir};
ghost use Rattle.gt_model.specs.declared.modules.Module.{Module};
ghost use Rattle.sym_expr.specs.TableOk.{ids_ok};
ghost use Rattle.sym_expr.specs.declared.patches.PatchTable.{PatchTable};
ghost use Rattle.taken_ids.specs.Faults.{id_fault};

/// Without a fault the identifiers of the patches' intervals and blocks are distinct, and no node has one.
pub fn free_without_fault()
    ensures { (ir : Ir) (m : Module) (p : PatchTable) → id_fault ir m p ≡ None → ids_ok ir m p }
{}
