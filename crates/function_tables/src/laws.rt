//! Laws of the definitions: each function is its contract.

ghost use Rattle.std.specs.Prelude.{◌≡◌, Contains, None, Some};
ghost use Rattle.aux_codec.specs.Places.{with_places};
ghost use Rattle.aux_codec.specs.Spelling.{HasType};
ghost use Rattle.aux_codec.specs.Value.{Entries, Pairs, Value};
ghost use Rattle.aux_codec.specs.declared.value.Place.{Place};
ghost use Rattle.aux_tables.specs.ModuleTables.{shape_of_table, table_value};
ghost use Rattle.edge_repair.specs.Sets.{function_value, parts_of};
ghost use Rattle.function_tables.specs.declared.kinds.TableKind.{TableKind as Kind};
ghost use Rattle.function_tables.specs.Functions.{entries_in, kind_in, type_of, HasFewEntries};
ghost use Rattle.gt_model.specs.declared.ir.Ir.{Ir};
ghost use Rattle.gt_model.specs.declared.modules.Module.{Module};
ghost use Rattle.gt_model.specs.declared.tables.Aux.{Aux};
ghost use Rattle.module_program.specs.Graphs.{patched_in};
ghost use Rattle.sym_expr.specs.declared.patches.PatchTable.{PatchTable as Patches};
ghost use Rattle.sym_expr.specs.declared.program.Program.{Program};
ghost use Rattle.taken_ids.specs.Faults.{id_fault};

/// A table of functions is of the type that it names.
pub fn tables_have_their_types()
    ensures { (a : Aux) (kind : Kind) → kind_in a ≡ Some kind → shape_of_table a ≡ Some (type_of kind) }
{}

/// Other tables get nothing of the patches.
pub fn other_tables_stay()
    ensures { (m : Module) (g : Program) (p : Patches) (a : Aux) (x : Value) → kind_in a ≡ None → function_value m g p a x ≡ x }
{}

/// A table of functions is a mapping in which no Places move.
pub fn tables_are_mappings()
    ensures mapping { (kind : Kind) (x : Value) → HasType (type_of kind) x → (es : Entries) × (x ≡ Pairs es) }
    ensures stays { (f : Place → Place) (kind : Kind) (es : Entries) → HasType (type_of kind) (Pairs es) → with_places f (Pairs es) ≡ Pairs es }
{}

/// It gets the entries that its kind says.
pub fn tables_get_their_entries()
    ensures { (m : Module) (g : Program) (p : Patches) (a : Aux) (es : Entries) (kind : Kind) → kind_in a ≡ Some kind → function_value m g p a (Pairs es) ≡ Pairs (entries_in kind m (parts_of m g) p.functions es) }
{}

/// It keeps its type, where no identifier that the patches derive was taken.
pub fn tables_keep_their_types()
    ensures { (ir : Ir) (m : Module) (p : Patches) (a : Aux) (kind : Kind) (es : Entries) → id_fault ir m p ≡ None → Contains m.aux a → table_value a ≡ Some (Pairs es) → HasType (type_of kind) (Pairs es) → HasFewEntries kind m (parts_of m (patched_in m p)) p.functions es → HasType (type_of kind) (Pairs (entries_in kind m (parts_of m (patched_in m p)) p.functions es)) }
{}
