//! Laws of the definitions that contracts cite: each function is its contract.

ghost use Rattle.std.specs.Prelude.{◌≡◌, ◌<◌, Some, Contains, length, slice_get};
ghost use Rattle.gt_model.specs.Linked.{linked};
ghost use Rattle.gt_model.specs.Ordered.{ordered};
ghost use Rattle.node_arena.specs.declared.ids.IntervalId.{IntervalId};
ghost use Rattle.node_arena.specs.declared.ids.ModuleId.{ModuleId};
ghost use Rattle.node_arena.specs.declared.ids.SectionId.{SectionId};
ghost use Rattle.node_arena.specs.Arenas.{Arenas, module_at, section_at, interval_at};
ghost use Rattle.node_arena.specs.Parts.{live_blocks, live_intervals, live_sections, live_symbols, live_proxies};
ghost use Rattle.node_arena.specs.Plain.{ir_of, plain_module};
ghost use Rattle.node_arena.specs.Sound.{sound};

/// The IR of a graph is linked, and its expressions and tables are in order.
pub fn sound_is_linked()
    ensures linked { (g : Arenas) → sound g → linked (ir_of g) }
    ensures ordered { (g : Arenas) → sound g → ordered (ir_of g) }
{}

/// The modules of a graph are those of its IR, at the same ordinals.
pub fn modules_are_at_their_ordinals()
    ensures count { (g : Arenas) → length (ir_of g).modules ≡ length g.modules }
    ensures at { (g : Arenas) (id : ModuleId) → id.index < length g.modules → slice_get (ir_of g).modules id.index ≡ Some (plain_module g (module_at g id)) }
    ensures member { (g : Arenas) (id : ModuleId) → id.index < length g.modules → Contains (ir_of g).modules (plain_module g (module_at g id)) }
{}

/// The identifiers in a node of a graph are those of nodes of the graph.
pub fn parts_are_live()
    ensures sections { (g : Arenas) (id : ModuleId) → sound g → id.index < length g.modules → live_sections g (module_at g id).sections }
    ensures symbols { (g : Arenas) (id : ModuleId) → sound g → id.index < length g.modules → live_symbols g (module_at g id).symbols }
    ensures proxies { (g : Arenas) (id : ModuleId) → sound g → id.index < length g.modules → live_proxies g (module_at g id).proxies }
    ensures intervals { (g : Arenas) (id : SectionId) → sound g → id.index < length g.sections → live_intervals g (section_at g id).intervals }
    ensures blocks { (g : Arenas) (id : IntervalId) → sound g → id.index < length g.intervals → live_blocks g (interval_at g id).blocks }
{}
