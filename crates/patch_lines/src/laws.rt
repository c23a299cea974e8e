//! Laws of the definitions that contracts cite: each function is its contract.

ghost use Rattle.std.specs.Prelude.{◌≡◌, List, Ok};
ghost use Rattle.std.specs.List.{AllByRecursion};
ghost use Rattle.gt_model.specs.declared.modules.Module.{Module};
ghost use Rattle.gt_model.specs.Typed.{typed_module};
ghost use Rattle.sym_expr.specs.declared.patches.PatchTable.{PatchTable};
ghost use Rattle.sym_expr.specs.TableOk.{table_ok};
ghost use Rattle.patch_lines.specs.declared.line.PatchLine.{PatchLine};
ghost use Rattle.patch_lines.specs.Building.{outcome};
ghost use Rattle.patch_lines.specs.Values.{typed_line};

/// The module can take the table that lines give.
pub fn tables_fit()
    ensures { (m : Module) (lines : List PatchLine) (table : PatchTable) → typed_module m → AllByRecursion typed_line lines → outcome m lines ≡ Ok table → table_ok m table }
{}
