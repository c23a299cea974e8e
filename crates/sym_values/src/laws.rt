//! What follows from the definition of room alone.

ghost use Rattle.std.specs.Prelude.{◌≤◌, ℕ};
ghost use Rattle.sym_expr.specs.declared.value.Object.{Object};
ghost use Rattle.sym_values.specs.declared.kept.KeptCells.{KeptCells};
ghost use Rattle.sym_values.specs.Kept.{kept_room};

/// Where there is room for some values, there is room for fewer.
#[tactic(auto, unfolding(crate::specs::Kept::kept_room))]
pub fn room_for_more_is_room()
    ensures { (kept : KeptCells) (o : Object) (fewer more : ℕ) → fewer ≤ more → kept_room kept more o → kept_room kept fewer o }
{
    cell_memory::laws::room_for_more_is_room();
}
