//! Laws of the definitions that contracts cite: each function is its contract.

ghost use Rattle.std.specs.Prelude.{◌<◌, ◌^◌, length};
ghost use Rattle.gt_model.specs.declared.ir.Ir.{Ir};
ghost use Rattle.gt_model.specs.declared.modules.Module.{Module};
ghost use Rattle.sym_expr.specs.Linkable.{formed};
ghost use Rattle.sym_expr.specs.Modules.{loaded_intervals};
ghost use Rattle.sym_expr.specs.Patches.{no_patches};
ghost use Rattle.sym_expr.specs.Program.{program};
ghost use Rattle.sym_expr.specs.TableOk.{ids_ok, table_ok};
ghost use Rattle.sym_expr.specs.Tables.{Tables};
ghost use Rattle.sym_expr.specs.WellMade.{well_made};
ghost use Rattle.sym_expr.specs.declared.patches.PatchTable.{PatchTable as Patches};

/// The program of a formed module can be laid out and linked.
pub fn programs_are_well_made()
    ensures { (ir : Ir) (m : Module) (t : Tables) → formed ir m t → well_made (program m t no_patches) }
{}

/// So can the program of a formed module and of patches that it can take.
pub fn patched_programs_are_well_made()
    ensures { (ir : Ir) (m : Module) (t : Tables) (p : Patches) → formed ir m t → length (loaded_intervals m) < 2 ^ 39 → table_ok m p → ids_ok ir m p → well_made (program m t p) }
{}

/// Every module can take no patches, and no node has an identifier of theirs.
pub fn no_patches_fit()
    ensures fit { (m : Module) → table_ok m no_patches }
    ensures free { (ir : Ir) (m : Module) → ids_ok ir m no_patches }
{}
