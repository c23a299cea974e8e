//! Laws of the definitions: each function is its contract.

ghost use Rattle.std.specs.Prelude.{◌≡◌, ◌≢◌, ◌<◌, ◌≤◌, ℕ, ◌+◌, ◌^◌, ℤ, false, true, List, find, length, map, AllPairs, IsSomeAnd, Some};
ghost use Rattle.std.specs.List.{AllByRecursion, AllZip, flat_map, list_any};
ghost use Rattle.std.specs.Str.{bytes_eq};
ghost use Rattle.block_parts.specs.Parts.{parts};
ghost use Rattle.gt_model.specs.declared.ir.Ir.{Ir};
ghost use Rattle.gt_model.specs.declared.modules.Module.{Module};
ghost use Rattle.edge_repair.specs.Repaired.{repaired_module};
ghost use Rattle.gt_model.specs.declared.symbols.Symbol.{Symbol};
ghost use Rattle.repaired_programs.specs.Intervals.{AimsOne, BringsOne, NamesOne, SaysOne};
ghost use Rattle.repaired_programs.specs.Named.{IsOneStretch, IsOneTarget};
ghost use Rattle.repaired_programs.specs.Symbols.{IsLoadedPayload};
ghost use Rattle.repaired_programs.specs.Values.{IsOneExpr, IsOneMoved, IsOneValue};
ghost use Rattle.gt_model.specs.declared.exprs.Expr.{Expr};
ghost use Rattle.gt_model.specs.declared.intervals.Interval.{Interval};
ghost use Rattle.rewrite.specs.Rewritten.{has_words};
ghost use Rattle.sym_expr.specs.Patches.{no_patches};
ghost use Rattle.repaired_programs.specs.Pieces.{bare_program, new_program};
ghost use Rattle.repaired_programs.specs.Programs.{repaired_program};
ghost use Rattle.repaired_programs.specs.Spots.{new_spots};
ghost use Rattle.rewrite.specs.Blocks.{part_size};
ghost use Rattle.rewrite.specs.Identifiers.{last_part, part_id};
ghost use Rattle.sym_expr.specs.declared.layout.Layout.{Layout};
ghost use Rattle.sym_expr.specs.declared.patches.Function.{Function};
ghost use Rattle.sym_expr.specs.declared.patches.Insert.{Insert};
ghost use Rattle.sym_expr.specs.declared.patches.PatchTable.{PatchTable as Patches};
ghost use Rattle.sym_expr.specs.declared.program.CodeBlock.{CodeBlock};
ghost use Rattle.sym_expr.specs.declared.program.Program.{Program};
ghost use Rattle.sym_expr.specs.declared.program.Stretch.{Stretch};
ghost use Rattle.sym_expr.specs.Images.{block_address, image, link_fault, point_address};
ghost use Rattle.sym_expr.specs.Layouts.{address_of};
ghost use Rattle.sym_expr.specs.Linkable.{formed};
ghost use Rattle.sym_expr.specs.Modules.{blocks_of, id_of, loaded_intervals};
ghost use Rattle.sym_expr.specs.Placing.{placed, shape_of};
ghost use Rattle.sym_expr.specs.Points.{code_blocks, code_size, ins};
ghost use Rattle.rewrite.specs.Offsets.{new_offset};
ghost use Rattle.sym_expr.specs.Program.{program, stretch};
ghost use Rattle.sym_expr.specs.TableOk.{function_words, ids_ok, table_ok, typed_patches};
ghost use Rattle.sym_expr.specs.Tables.{Tables};
ghost use Rattle.sym_expr.specs.Targets.{old_target, point, start_of};
ghost use Rattle.sym_expr.specs.WellMade.{block_ids, well_made};

/// The program of a repaired module needs the rooms that the program of the module and its patches needs: both have the
/// same layouts.
pub fn repaired_programs_keep_the_shape()
    ensures { (ir : Ir) (m : Module) (t : Tables) (p : Patches) → formed ir m t → length (loaded_intervals m) < 2 ^ 39 → table_ok m p → ids_ok ir m p → shape_of (repaired_program m t p) ≡ shape_of (program m t p) }
{
    rewrite::laws::words_are_counted();
    sym_expr::laws::patched_programs_are_well_made();
}

/// But for what operands and data name, it is the program of the module and its patches once more: code in its parts, data at
/// its new offset, and gaps together with padding.
pub fn repaired_programs_have_new_pieces()
    ensures { (ir : Ir) (m : Module) (t : Tables) (p : Patches) → formed ir m t → length (loaded_intervals m) < 2 ^ 39 → table_ok m p → ids_ok ir m p → bare_program (repaired_program m t p) ≡ new_program m (program m t p) }
{
    block_parts::laws::whole_blocks_are_one_part();
    block_parts::laws::words_are_of_images();
    rewrite::laws::words_are_counted();
    sym_expr::laws::patched_programs_are_well_made();
}

/// Under every layout both programs give a block one address, and each part of a block lies as far behind it as its words do.
pub fn blocks_keep_their_addresses()
    ensures blocks { (ir : Ir) (m : Module) (t : Tables) (p : Patches) (l : Layout) → formed ir m t → length (loaded_intervals m) < 2 ^ 39 → table_ok m p → ids_ok ir m p → AllPairs (λ (a later : List ℕ). a ≢ later) (block_ids (repaired_program m t p)) → AllByRecursion (λ (id : List ℕ). block_address l (repaired_program m t p) id ≡ block_address l (program m t p) id) (block_ids (program m t p)) }
    ensures parts { (ir : Ir) (m : Module) (t : Tables) (p : Patches) (l : Layout) → formed ir m t → length (loaded_intervals m) < 2 ^ 39 → table_ok m p → ids_ok ir m p → AllPairs (λ (a later : List ℕ). a ≢ later) (block_ids (repaired_program m t p)) → AllByRecursion (λ (s : Stretch). AllByRecursion (λ (e : List ℕ × ℕ). block_address l (repaired_program m t p) e.0 ≡ Some (address_of l s.id + e.1)) (flat_map (new_spots m) (placed s))) (program m t p).stretches }
{
    block_parts::laws::whole_blocks_are_one_part();
    block_parts::laws::words_are_of_images();
    rewrite::laws::words_are_counted();
    sym_expr::laws::patched_programs_are_well_made();
}

/// Under every layout the points that targets name keep their addresses: where the program starts, the starts of blocks, and
/// the end of a block at the end of its last part.
pub fn points_keep_their_addresses()
    ensures entry { (ir : Ir) (m : Module) (t : Tables) (p : Patches) (l : Layout) → formed ir m t → length (loaded_intervals m) < 2 ^ 39 → table_ok m p → ids_ok ir m p → AllPairs (λ (a later : List ℕ). a ≢ later) (block_ids (repaired_program m t p)) → point_address l (repaired_program m t p) (repaired_program m t p).entry ≡ point_address l (program m t p) (program m t p).entry }
    ensures starts { (ir : Ir) (m : Module) (t : Tables) (p : Patches) (l : Layout) → formed ir m t → length (loaded_intervals m) < 2 ^ 39 → table_ok m p → ids_ok ir m p → AllPairs (λ (a later : List ℕ). a ≢ later) (block_ids (repaired_program m t p)) → AllByRecursion (λ (id : List ℕ). point_address l (repaired_program m t p) (start_of id) ≡ point_address l (program m t p) (start_of id)) (block_ids (program m t p)) }
    ensures ends { (ir : Ir) (m : Module) (t : Tables) (p : Patches) (l : Layout) → formed ir m t → length (loaded_intervals m) < 2 ^ 39 → table_ok m p → ids_ok ir m p → AllPairs (λ (a later : List ℕ). a ≢ later) (block_ids (repaired_program m t p)) → AllByRecursion (λ (b : CodeBlock). point_address l (repaired_program m t p) (point (part_id m b.id (last_part (parts b))) (part_size (last_part (parts b))) 0) ≡ point_address l (program m t p) (point b.id (code_size b) (length (ins b (code_size b))))) (code_blocks (program m t p)) }
{
    block_parts::laws::whole_blocks_are_one_part();
    block_parts::laws::words_are_of_images();
    rewrite::laws::words_are_counted();
    sym_expr::laws::patched_programs_are_well_made();
}

/// A program that is another's once more has its image and its fault, where the words and the data of both name one thing
/// each under the layout.
pub fn images_follow_names()
    ensures images { (m : Module) (l : Layout) (g new : Program) → well_made g → shape_of new ≡ shape_of g → bare_program new ≡ new_program m g → AllZip (IsOneStretch l new g) new.stretches g.stretches → point_address l new new.entry ≡ point_address l g g.entry → image new l ≡ image g l }
    ensures faults { (m : Module) (l : Layout) (g new : Program) → well_made g → shape_of new ≡ shape_of g → bare_program new ≡ new_program m g → AllZip (IsOneStretch l new g) new.stretches g.stretches → link_fault new l ≡ link_fault g l }
{
    block_parts::laws::words_are_of_images();
    rewrite::laws::words_are_counted();
}

/// What a symbol of the module names under a layout is one in both programs, by its value and by whether it stands for
/// nothing. It stands for a number, for nothing, or for a block of a loaded section.
pub fn symbols_keep_what_they_name()
    ensures { (ir : Ir) (m : Module) (t : Tables) (p : Patches) (l : Layout) → formed ir m t → length (loaded_intervals m) < 2 ^ 39 → table_ok m p → ids_ok ir m p → AllPairs (λ (a later : List ℕ). a ≢ later) (block_ids (repaired_program m t p)) → (id : List ℕ) (offset : ℤ) → IsSomeAnd (find (λ (s : Symbol). bytes_eq s.uuid id) m.symbols) (λ (s : Symbol). IsLoadedPayload m s.payload) → IsOneTarget l (repaired_program m t p) (program m t p) (old_target (repaired_module m t p) no_patches id offset) (old_target m p id offset) }
{
    block_parts::laws::whole_blocks_are_one_part();
    block_parts::laws::words_are_of_images();
    rewrite::laws::words_are_counted();
    sym_expr::laws::programs_are_well_made();
    sym_expr::laws::patched_programs_are_well_made();
}

/// The image of a repaired module is that of the module and its patches, and so is its fault, where each loaded interval and
/// each function says one thing in both.
pub fn images_follow_intervals()
    ensures images { (ir : Ir) (m : Module) (t : Tables) (p : Patches) (l : Layout) → formed ir m t → length (loaded_intervals m) < 2 ^ 39 → table_ok m p → ids_ok ir m p → AllPairs (λ (a later : List ℕ). a ≢ later) (block_ids (repaired_program m t p)) → AllByRecursion (SaysOne m t p l) (loaded_intervals m) → AllByRecursion (BringsOne m t p l) p.functions → image (repaired_program m t p) l ≡ image (program m t p) l }
    ensures faults { (ir : Ir) (m : Module) (t : Tables) (p : Patches) (l : Layout) → formed ir m t → length (loaded_intervals m) < 2 ^ 39 → table_ok m p → ids_ok ir m p → AllByRecursion (SaysOne m t p l) (loaded_intervals m) → AllByRecursion (BringsOne m t p l) p.functions → link_fault (repaired_program m t p) l ≡ link_fault (program m t p) l }
{
    block_parts::laws::whole_blocks_are_one_part();
    block_parts::laws::words_are_of_images();
    rewrite::laws::words_are_counted();
    sym_expr::laws::patched_programs_are_well_made();
}

/// Each function says one thing in both programs, where the targets of its words are one.
pub fn functions_say_one()
    ensures { (m : Module) (t : Tables) (p : Patches) (l : Layout) → typed_patches p → AllByRecursion (λ (f : Function). AllByRecursion (AimsOne m t p l) (function_words f)) p.functions → AllByRecursion (BringsOne m t p l) p.functions }
{
    block_parts::laws::whole_blocks_are_one_part();
    block_parts::laws::words_are_of_images();
}

/// An interval where no words are inserted says one thing in both programs, where the symbols that its expressions name do,
/// and where the moved sizes of its expressions are those that they had.
pub fn intervals_without_words_say_one()
    ensures { (ir : Ir) (m : Module) (t : Tables) (p : Patches) (l : Layout) → formed ir m t → length (loaded_intervals m) < 2 ^ 39 → table_ok m p → ids_ok ir m p → AllByRecursion (λ (i : Interval). list_any (has_words p) i.blocks ≡ false → AllByRecursion (IsOneExpr m t p l i) i.exprs → SaysOne m t p l i) (loaded_intervals m) }
{
    block_parts::laws::whole_blocks_are_one_part();
    block_parts::laws::words_are_of_images();
    rewrite::laws::words_are_counted();
    sym_expr::laws::patched_programs_are_well_made();
}

/// In an interval where words are inserted each word, own or inserted, names one thing in both programs, where the symbols
/// that its expressions and the inserted words name do.
pub fn intervals_with_words_name_one()
    ensures { (ir : Ir) (m : Module) (t : Tables) (p : Patches) (l : Layout) → formed ir m t → length (loaded_intervals m) < 2 ^ 39 → table_ok m p → ids_ok ir m p → AllByRecursion (λ (x : Insert). AllByRecursion (AimsOne m t p l) x.body) p.inserts → AllByRecursion (λ (i : Interval). list_any (has_words p) i.blocks ≡ true → AllByRecursion (λ (e : Expr). IsOneValue m t p l e.value) i.exprs → NamesOne m t p l i) (loaded_intervals m) }
{
    block_parts::laws::words_are_of_images();
    rewrite::laws::words_are_counted();
    sym_expr::laws::patched_programs_are_well_made();
}

/// In an interval where words are inserted its words and its data say one thing in both programs, where the symbols that its
/// expressions and the inserted words name do, and where the moved sizes of its expressions are those that they had.
pub fn intervals_with_words_say_one()
    ensures { (ir : Ir) (m : Module) (t : Tables) (p : Patches) (l : Layout) → formed ir m t → length (loaded_intervals m) < 2 ^ 39 → table_ok m p → ids_ok ir m p → AllByRecursion (λ (x : Insert). AllByRecursion (AimsOne m t p l) x.body) p.inserts → AllByRecursion (λ (i : Interval). list_any (has_words p) i.blocks ≡ true → AllByRecursion (IsOneMoved m t p l i) i.exprs → SaysOne m t p l i) (loaded_intervals m) }
{
    block_parts::laws::words_are_of_images();
    rewrite::laws::words_are_counted();
    sym_expr::laws::patched_programs_are_well_made();
}

/// In an interval where no words are inserted each byte stays, and so does its end.
pub fn bytes_stay_without_words()
    ensures { (ir : Ir) (m : Module) (t : Tables) (p : Patches) → formed ir m t → length (loaded_intervals m) < 2 ^ 39 → table_ok m p → ids_ok ir m p → AllByRecursion (λ (i : Interval). list_any (has_words p) i.blocks ≡ false → (a : ℕ) → a ≤ i.size → new_offset (stretch m t p i) a ≡ a) (loaded_intervals m) }
{
    rewrite::laws::words_are_counted();
    sym_expr::laws::patched_programs_are_well_made();
}

/// The blocks of a module's program without patches have identifiers of their own, where those of its loaded intervals do.
pub fn blocks_of_programs_are_apart()
    ensures { (m : Module) (t : Tables) → AllPairs (λ (a later : List ℕ). a ≢ later) (map id_of (blocks_of (loaded_intervals m))) → AllPairs (λ (a later : List ℕ). a ≢ later) (block_ids (program m t no_patches)) }
{}
