//! Laws of the definitions: each function is its contract.

ghost use Rattle.std.specs.Prelude.{◌≡◌, Option};
ghost use Rattle.aux_codec.specs.Value.{Value};
ghost use Rattle.edge_repair.specs.Edges.{repaired_cfg};
ghost use Rattle.edge_repair.specs.Repaired.{new_value};
ghost use Rattle.gt_model.specs.declared.edges.Cfg.{Cfg};
ghost use Rattle.gt_model.specs.declared.ir.Ir.{Ir};
ghost use Rattle.gt_model.specs.declared.modules.Module.{Module};
ghost use Rattle.gt_model.specs.declared.tables.Aux.{Aux};
ghost use Rattle.sym_expr.specs.Linkable.{formed};
ghost use Rattle.sym_expr.specs.Patches.{no_patches};
ghost use Rattle.sym_expr.specs.Tables.{Tables};

/// Without patches edges and vertices stay as they are.
pub fn no_patches_keep_the_edges()
    ensures { (m : Module) (t : Tables) (cfg : Option Cfg) → repaired_cfg m t no_patches cfg ≡ cfg }
{}

/// Without patches the value of a table stays as it is.
pub fn no_patches_keep_the_values()
    ensures { (ir : Ir) (m : Module) (t : Tables) (a : Aux) (x : Value) → formed ir m t → new_value m t no_patches a x ≡ x }
{}
