//! What the image of a program has.

ghost use Rattle.std.specs.Prelude.{◌≡◌, ◌<◌, ◌^◌, ◌∷◌, ℕ, List, None, length};
ghost use Rattle.gt_model.specs.declared.ir.Ir.{Ir};
ghost use Rattle.gt_model.specs.declared.modules.Module.{Module};
ghost use Rattle.num_run.specs.Run.{start as start_of_image};
ghost use Rattle.paged_memory.specs.Mapping.{byte_in, stack_of};
ghost use Rattle.simulation.specs.Placed.{IsPlaced, start as start_of_placed};
ghost use Rattle.simulation.specs.Placement.{placement_of};
ghost use Rattle.sym_expr.specs.declared.layout.Layout.{Layout};
ghost use Rattle.sym_expr.specs.declared.program.Program.{Program};
ghost use Rattle.sym_expr.specs.Images.{image, link_fault};
ghost use Rattle.sym_expr.specs.Layouts.{accepted};
ghost use Rattle.sym_expr.specs.Linkable.{formed};
ghost use Rattle.sym_expr.specs.Modules.{loaded_intervals};
ghost use Rattle.sym_expr.specs.Patches.{no_patches};
ghost use Rattle.sym_expr.specs.Placing.{shape_of};
ghost use Rattle.sym_expr.specs.Program.{program};
ghost use Rattle.sym_expr.specs.TableOk.{ids_ok, table_ok, typed_patches};
ghost use Rattle.sym_expr.specs.Tables.{Tables};
ghost use Rattle.sym_expr.specs.WellMade.{well_made};
ghost use Rattle.sym_expr.specs.declared.patches.PatchTable.{PatchTable as Patches};
ghost use Rattle.placed_images.specs.Simulates.{Simulates};
ghost use Rattle.placed_images.specs.Typed.{IsTyped, HasNearEntries};

use simulation::laws::runs_agree;

/// The image of a program without a fault is the program where its layout places it.
pub fn images_are_placed()
    ensures { (g : Program) (l : Layout) → well_made g → IsTyped g → HasNearEntries g → accepted l (shape_of g) → link_fault g l ≡ None → IsPlaced (placement_of l g) g (byte_in (stack_of (image g l) ∷ (image g l).segments)) }
{}

/// The machine of an image starts as that of the placed program.
pub fn images_start_alike()
    ensures { (g : Program) (l : Layout) (input : List ℕ) → start_of_image (image g l) input ≡ start_of_placed (placement_of l g) g (byte_in (stack_of (image g l) ∷ (image g l).segments)) input }
{}

/// The program of a formed module has numbers of their types, and the points of an entry lie in one interval.
pub fn programs_are_typed()
    ensures typed { (ir : Ir) (m : Module) (t : Tables) → formed ir m t → IsTyped (program m t no_patches) }
    ensures near { (ir : Ir) (m : Module) (t : Tables) → formed ir m t → HasNearEntries (program m t no_patches) }
{
    sym_expr::laws::programs_are_well_made();
}

/// So has the program of such a module and of patches that it can take.
pub fn patched_programs_are_typed()
    ensures typed { (ir : Ir) (m : Module) (t : Tables) (p : Patches) → formed ir m t → typed_patches p → IsTyped (program m t p) }
    ensures near { (ir : Ir) (m : Module) (t : Tables) (p : Patches) → formed ir m t → length (loaded_intervals m) < 2 ^ 39 → table_ok m p → ids_ok ir m p → HasNearEntries (program m t p) }
{
    sym_expr::laws::patched_programs_are_well_made();
}

/// The image of a program without a fault does what the symbolic machine of the program does.
pub fn images_simulate()
    ensures { (g : Program) (l : Layout) → well_made g → IsTyped g → HasNearEntries g → accepted l (shape_of g) → link_fault g l ≡ None → Simulates g l }
{
    images_are_placed();
    images_start_alike();
    runs_agree();
}
