//! Laws of the definitions: each function is its contract.

ghost use Rattle.std.specs.Prelude.{◌≡◌, ◌<◌, ◌^◌, [], length, None};
ghost use Rattle.std.specs.List.{AllByRecursion};
ghost use Rattle.aux_tables.specs.ModuleTables.{tables_of};
ghost use Rattle.gt_model.specs.declared.intervals.Interval.{Interval};
ghost use Rattle.gt_model.specs.declared.ir.Ir.{Ir};
ghost use Rattle.gt_model.specs.declared.modules.Module.{Module};
ghost use Rattle.ir_check.specs.Faults.{bad_places};
ghost use Rattle.repaired_images.specs.Sizes.{KeepsSize};
ghost use Rattle.repaired_programs.specs.Programs.{repaired_program};
ghost use Rattle.sym_expr.specs.declared.layout.Layout.{Layout};
ghost use Rattle.sym_expr.specs.declared.patches.PatchTable.{PatchTable as Patches};
ghost use Rattle.sym_expr.specs.Images.{image, link_fault};
ghost use Rattle.sym_expr.specs.Linkable.{formed};
ghost use Rattle.sym_expr.specs.Modules.{loaded_intervals};
ghost use Rattle.sym_expr.specs.Placing.{shape_of};
ghost use Rattle.sym_expr.specs.Program.{program};
ghost use Rattle.sym_expr.specs.TableOk.{table_ok};
ghost use Rattle.taken_ids.specs.Faults.{id_fault};

/// The moved sizes of expressions are those that they had, where no Place is past the size of what it names and no identifier
/// that the patches derive was taken.
pub fn moved_sizes_are_kept()
    ensures { (ir : Ir) (m : Module) (p : Patches) → formed ir m (tables_of m) → id_fault ir m p ≡ None → bad_places (loaded_intervals m) m.aux ≡ [] → AllByRecursion (λ (i : Interval). AllByRecursion (KeepsSize m (tables_of m) p i) i.exprs) (loaded_intervals m) }
{
    rewrite::laws::bytes_keep_their_order();
    rewrite::laws::pieces_have_the_old_bytes();
}

/// The repaired module needs the rooms that the module and its patches need, where no identifier that the patches derive was
/// taken: both have the same layouts.
pub fn one_shape()
    ensures { (ir : Ir) (m : Module) (p : Patches) → formed ir m (tables_of m) → length (loaded_intervals m) < 2 ^ 39 → table_ok m p → id_fault ir m p ≡ None → shape_of (repaired_program m (tables_of m) p) ≡ shape_of (program m (tables_of m) p) }
{
    repaired_programs::laws::repaired_programs_keep_the_shape();
    taken_ids::laws::free_without_fault();
}

/// The program of the repaired module has the image of the module and its patches, where no Place is past the size of what it
/// names and no identifier that the patches derive was taken.
pub fn one_image()
    ensures { (ir : Ir) (m : Module) (p : Patches) (l : Layout) → formed ir m (tables_of m) → length (loaded_intervals m) < 2 ^ 39 → table_ok m p → id_fault ir m p ≡ None → bad_places (loaded_intervals m) m.aux ≡ [] → image (repaired_program m (tables_of m) p) l ≡ image (program m (tables_of m) p) l }
{
    moved_sizes_are_kept();
    block_parts::laws::whole_blocks_are_one_part();
    repaired_programs::laws::blocks_of_programs_are_apart();
    repaired_programs::laws::bytes_stay_without_words();
    repaired_programs::laws::functions_say_one();
    repaired_programs::laws::images_follow_intervals();
    repaired_programs::laws::intervals_with_words_say_one();
    repaired_programs::laws::intervals_without_words_say_one();
    repaired_programs::laws::points_keep_their_addresses();
    repaired_programs::laws::symbols_keep_what_they_name();
    rewrite::laws::words_are_counted();
    rewritten_links::laws::repaired_irs_are_linked();
    sym_expr::laws::patched_programs_are_well_made();
    taken_ids::laws::free_without_fault();
}

/// It has its link fault too, or none where it has none.
pub fn one_fault()
    ensures { (ir : Ir) (m : Module) (p : Patches) (l : Layout) → formed ir m (tables_of m) → length (loaded_intervals m) < 2 ^ 39 → table_ok m p → id_fault ir m p ≡ None → bad_places (loaded_intervals m) m.aux ≡ [] → link_fault (repaired_program m (tables_of m) p) l ≡ link_fault (program m (tables_of m) p) l }
{
    moved_sizes_are_kept();
    block_parts::laws::whole_blocks_are_one_part();
    repaired_programs::laws::blocks_of_programs_are_apart();
    repaired_programs::laws::bytes_stay_without_words();
    repaired_programs::laws::functions_say_one();
    repaired_programs::laws::images_follow_intervals();
    repaired_programs::laws::intervals_with_words_say_one();
    repaired_programs::laws::intervals_without_words_say_one();
    repaired_programs::laws::points_keep_their_addresses();
    repaired_programs::laws::symbols_keep_what_they_name();
    rewrite::laws::words_are_counted();
    rewritten_links::laws::repaired_irs_are_linked();
    sym_expr::laws::patched_programs_are_well_made();
    taken_ids::laws::free_without_fault();
}
