//! What follows from the definition of room alone.

ghost use Rattle.std.specs.Prelude.{◌≤◌, ℕ};
ghost use Rattle.cell_memory.specs.declared.memory.CellMemory.{CellMemory};
ghost use Rattle.cell_memory.specs.Memory.{HasRoom};
ghost use Rattle.sym_expr.specs.declared.value.Object.{Object};

/// Where there is room for some values, there is room for fewer.
pub fn room_for_more_is_room()
    ensures { (memory : CellMemory) (o : Object) (fewer more : ℕ) → fewer ≤ more → HasRoom memory more o → HasRoom memory fewer o }
{}
