//! Laws of the definitions: each function is its contract.

ghost use Rattle.std.specs.Prelude.{◌≡◌, ◌<◌, ◌^◌, [], length, Some, None, Ok, Contains};
ghost use Rattle.aux_codec.specs.Places.{IsInjectiveOn};
ghost use Rattle.aux_codec.specs.Value.{Value};
ghost use Rattle.aux_tables.specs.ModuleTables.{table_value, tables_of};
ghost use Rattle.edge_repair.specs.Repaired.{repaired};
ghost use Rattle.gt_model.specs.declared.ir.Ir.{Ir};
ghost use Rattle.gt_model.specs.declared.modules.Module.{Module};
ghost use Rattle.gt_model.specs.declared.tables.Aux.{Aux};
ghost use Rattle.gt_model.specs.Linked.{linked};
ghost use Rattle.gt_model.specs.Ordered.{ordered};
ghost use Rattle.gt_model.specs.Typed.{typed};
ghost use Rattle.ir_check.specs.declared.profile.Profile.{Profile};
ghost use Rattle.ir_check.specs.declared.report.CheckReport.{CheckReport};
ghost use Rattle.ir_check.specs.Faults.{bad_places};
ghost use Rattle.ir_check.specs.Report.{checked};
ghost use Rattle.rewrite.specs.Places.{moved_place};
ghost use Rattle.rewrite.specs.Rewritten.{rewritten};
ghost use Rattle.sym_expr.specs.declared.patches.PatchTable.{PatchTable as Patches};
ghost use Rattle.sym_expr.specs.Linkable.{formed};
ghost use Rattle.sym_expr.specs.Modules.{loaded_intervals};
ghost use Rattle.sym_expr.specs.TableOk.{table_ok};
ghost use Rattle.taken_ids.specs.Faults.{id_fault};

use block_parts::laws::{parts_have_all_words, whole_blocks_are_one_part};
use rewrite::laws::{bytes_keep_their_order, pieces_have_the_old_bytes};
use sym_expr::laws::patched_programs_are_well_made;
use taken_ids::laws::free_without_fault;

/// An IR stays linked where a module is rewritten and no identifier that the patches derive was taken.
pub fn rewritten_irs_are_linked()
    ensures { (ir : Ir) (m : Module) (p : Patches) → formed ir m (tables_of m) → table_ok m p → id_fault ir m p ≡ None → linked (rewritten ir m.uuid (tables_of m) p) }
{
    whole_blocks_are_one_part();
}

/// Its expressions and tables stay in order, whatever identifiers the patches derive.
pub fn rewritten_irs_are_ordered()
    ensures { (ir : Ir) (m : Module) (p : Patches) → formed ir m (tables_of m) → table_ok m p → ordered (rewritten ir m.uuid (tables_of m) p) }
{
    bytes_keep_their_order();
    pieces_have_the_old_bytes();
}

/// Its numbers stay of their fields' types, bytes stay bytes, and texts UTF-8.
pub fn rewritten_irs_are_typed()
    ensures { (ir : Ir) (m : Module) (p : Patches) → formed ir m (tables_of m) → length (loaded_intervals m) < 2 ^ 39 → table_ok m p → id_fault ir m p ≡ None → typed (rewritten ir m.uuid (tables_of m) p) }
{
    parts_have_all_words();
    patched_programs_are_well_made();
    free_without_fault();
}

/// The repaired IR is linked and in order too, with its edges, vertices and tables.
pub fn repaired_irs_are_linked()
    ensures linked { (ir : Ir) (m : Module) (p : Patches) → formed ir m (tables_of m) → table_ok m p → id_fault ir m p ≡ None → linked (repaired ir m (tables_of m) p) }
    ensures ordered { (ir : Ir) (m : Module) (p : Patches) → formed ir m (tables_of m) → table_ok m p → ordered (repaired ir m (tables_of m) p) }
{
    whole_blocks_are_one_part();
    rewritten_irs_are_ordered();
}

/// No two Places of a table go to one, where none is past the size of what it names.
pub fn places_stay_apart()
    ensures { (ir : Ir) (m : Module) (p : Patches) (a : Aux) (x : Value) → formed ir m (tables_of m) → id_fault ir m p ≡ None → bad_places (loaded_intervals m) m.aux ≡ [] → Contains m.aux a → table_value a ≡ Some x → IsInjectiveOn (moved_place m (tables_of m) p) x }
{
    parts_have_all_words();
    bytes_keep_their_order();
    pieces_have_the_old_bytes();
}

/// A module that passes its checks has no Place past what it names.
pub fn passing_modules_have_no_bad_places()
    ensures { (profile : Profile) (ir : Ir) (m : Module) (report : CheckReport) → checked profile ir m ≡ Ok report → bad_places (loaded_intervals m) m.aux ≡ [] }
{}
