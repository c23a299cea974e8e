//! Laws of the definitions: each function is its contract.

ghost use Rattle.std.specs.Prelude.{◌≡◌, ◌<◌, ◌≤◌, ℕ, ◌+◌, List, Contains, length, map, slice_index};
ghost use Rattle.std.specs.List.{AllByRecursion};
ghost use Rattle.block_parts.specs.Words.{patched_words};
ghost use Rattle.gt_model.specs.declared.intervals.Interval.{Interval};
ghost use Rattle.gt_model.specs.declared.ir.Ir.{Ir};
ghost use Rattle.gt_model.specs.declared.modules.Module.{Module};
ghost use Rattle.rewrite.specs.Contents.{new_contents, old_contents};
ghost use Rattle.rewrite.specs.Offsets.{new_offset};
ghost use Rattle.rewrite.specs.Rewritten.{rewritten, rewritten_module};
ghost use Rattle.rewrite.specs.Rooms.{interval_room, old_length, section_head, stretch_room};
ghost use Rattle.sym_expr.specs.declared.patches.PatchTable.{PatchTable as Patches};
ghost use Rattle.sym_expr.specs.declared.program.CodeBlock.{CodeBlock};
ghost use Rattle.sym_expr.specs.declared.program.Program.{Program};
ghost use Rattle.sym_expr.specs.declared.program.Stretch.{Stretch};
ghost use Rattle.sym_expr.specs.Linkable.{formed};
ghost use Rattle.sym_expr.specs.Modules.{bytes_at, loaded_intervals};
ghost use Rattle.sym_expr.specs.Patches.{no_patches};
ghost use Rattle.sym_expr.specs.Placing.{stretch_size};
ghost use Rattle.sym_expr.specs.Program.{program, stretch};
ghost use Rattle.sym_expr.specs.Tables.{Tables};
ghost use Rattle.sym_expr.specs.WellMade.{well_made, IsCode};

/// Without patches an IR stays as it is.
pub fn no_patches_change_nothing()
    ensures { (ir : Ir) (id : List ℕ) (t : Tables) → rewritten ir id t no_patches ≡ ir }
{}

/// The rewritten module is in the rewritten IR.
pub fn rewritten_modules_are_there()
    ensures { (ir : Ir) (m : Module) (t : Tables) (p : Patches) → Contains ir.modules m → Contains (rewritten ir m.uuid t p).modules (rewritten_module m t p) }
{}

/// A patched block has its own words and those that are inserted, and no others.
pub fn words_are_counted()
    ensures { (g : Program) (b : CodeBlock) → IsCode g b → length (patched_words b) ≡ length b.own + length b.inserted }
{}

/// Sections keep their order, identifiers, names and flags.
pub fn sections_keep_their_heads()
    ensures { (m : Module) (t : Tables) (p : Patches) → map section_head (rewritten_module m t p).sections ≡ map section_head m.sections }
{}

/// The loaded intervals of a rewritten module are those of the program of the module and its patches, in order and in
/// the rooms that layouts find for them.
pub fn intervals_have_the_rooms_of_programs()
    ensures { (ir : Ir) (m : Module) (t : Tables) (p : Patches) → formed ir m t → map interval_room (loaded_intervals (rewritten_module m t p)) ≡ map stretch_room (program m t p).stretches }
{}

/// New contents have as many bytes as the new size says.
pub fn contents_fill_their_room()
    ensures { (g : Program) → well_made g → AllByRecursion (λ (s : Stretch). length (new_contents s) ≡ stretch_size s) g.stretches }
{}

/// The bytes of an interval keep their order, and its end stays behind them.
pub fn bytes_keep_their_order()
    ensures { (s : Stretch) (a b : ℕ) → a < b → b ≤ old_length s → new_offset s a < new_offset s b }
{}

/// Each byte of an interval is found at its new offset.
pub fn bytes_are_found_again()
    ensures { (g : Program) → well_made g → AllByRecursion (λ (s : Stretch). (at : ℕ) → at < old_length s → slice_index (new_contents s) (new_offset s at) ≡ slice_index (old_contents s) at) g.stretches }
{}

/// What pieces had before is the bytes of their interval.
pub fn pieces_have_the_old_bytes()
    ensures { (ir : Ir) (m : Module) (t : Tables) (p : Patches) → formed ir m t → AllByRecursion (λ (i : Interval). old_contents (stretch m t p i) ≡ bytes_at i 0 i.size) (loaded_intervals m) }
{}
