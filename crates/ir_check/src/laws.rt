//! What a check that passes says.

ghost use Rattle.std.specs.Prelude.{◌≡◌, Ok, Contains};
ghost use Rattle.aux_tables.specs.ModuleTables.{tables_of};
ghost use Rattle.gt_model.specs.Linked.{well_linked};
ghost use Rattle.gt_model.specs.Ordered.{ordered};
ghost use Rattle.gt_model.specs.declared.ir.Ir.{Ir};
ghost use Rattle.gt_model.specs.declared.modules.Module.{Module};
ghost use Rattle.ir_check.specs.Report.{checked};
ghost use Rattle.ir_check.specs.declared.profile.Profile.{Profile};
ghost use Rattle.ir_check.specs.declared.report.CheckReport.{CheckReport};
ghost use Rattle.sym_expr.specs.Linkable.{linkable};

/// A module that passes has a program.
pub fn passing_modules_have_programs()
    ensures { (profile : Profile) (ir : Ir) (m : Module) (report : CheckReport) → checked profile ir m ≡ Ok report → well_linked ir → ordered ir → Contains ir.modules m → linkable ir m (tables_of m) }
{}
