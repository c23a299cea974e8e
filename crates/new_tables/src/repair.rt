//! The value of a table of a module that is repaired.

ghost use Rattle.std.specs.Prelude.{◌≡◌, Contains, Some, IfOk};
ghost use Rattle.aux_codec.specs.Value.{value_of};
ghost use Rattle.aux_tables.specs.ModuleTables.{table_value, tables_of};
ghost use Rattle.edge_repair.specs.Repaired.{new_value};
ghost use Rattle.edge_repair.specs.Sets.{function_value};
ghost use Rattle.function_tables.specs.Functions.{kind_in};
ghost use Rattle.module_program.specs.Graphs.{patched_in};
ghost use Rattle.new_tables.specs.Repairing.{IsMoved, IsOf, IsReady, StaysApart};

use aux_codec::{AuxValue, map_places};
use function_tables::laws::{
    other_tables_stay, tables_are_mappings, tables_get_their_entries, tables_have_their_types,
    tables_keep_their_types,
};
use function_tables::{LaterParts, TableKind, kind_of, with_functions};
use gt_model::{Aux, Module};
use moved_places::Moves;
use std::alloc::{AllocError, Global};
use sym_expr::PatchTable;

/// A module with patches, and what its tables are repaired with.
#[derive(Drop)]
pub struct Repair<'a> {
    pub module: &'a Module,
    pub patches: &'a PatchTable,
    pub moves: Moves,
    pub later: LaterParts,
}

/// The value of a table of functions, with new parts and functions.
fn put_kind(
    alloc: Global,
    repair: &Repair<'_>,
    kind: TableKind,
    table: &Aux,
    value: AuxValue,
) -> Result<AuxValue, AllocError>
    requires ready { IsReady repair.now }
    requires kind { kind_in table.now ≡ Some kind }
    requires moved { IsMoved repair.now.module.now repair.now.patches.now table.now (value_of value) }
    ensures value { IfOk result (λ made. value_of made ≡ function_value repair.now.module.now (patched_in repair.now.module.now repair.now.patches.now) repair.now.patches.now table.now (value_of value)) }
    ensures typed { IfOk result (λ made. IsOf table.now (value_of made)) }
{
    tables_have_their_types();
    tables_are_mappings();
    tables_get_their_entries();
    tables_keep_their_types();
    let functions = repair.patches.functions.as_slice();
    let made = with_functions(alloc, kind, repair.module, &repair.later, functions, value)?;
    Ok(made)
}

/// The value of a table, with new parts and functions where it is one of functions.
fn put_functions(
    alloc: Global,
    repair: &Repair<'_>,
    table: &Aux,
    value: AuxValue,
) -> Result<AuxValue, AllocError>
    requires ready { IsReady repair.now }
    requires moved { IsMoved repair.now.module.now repair.now.patches.now table.now (value_of value) }
    ensures value { IfOk result (λ made. value_of made ≡ function_value repair.now.module.now (patched_in repair.now.module.now repair.now.patches.now) repair.now.patches.now table.now (value_of value)) }
    ensures typed { IfOk result (λ made. IsOf table.now (value_of made)) }
{
    other_tables_stay();
    match kind_of(table) {
        Some(kind) => put_kind(alloc, repair, kind, table, value),
        None => Ok(value),
    }
}

/// The value of a table, with its Places moved and with new parts and functions.
pub fn new_value(
    alloc: Global,
    repair: &Repair<'_>,
    table: &Aux,
    value: AuxValue,
) -> Result<AuxValue, AllocError>
    requires ready { IsReady repair.now }
    requires there { Contains repair.now.module.now.aux table.now }
    requires held { table_value table.now ≡ Some (value_of value) }
    requires typed { IsOf table.now (value_of value) }
    requires apart { StaysApart repair.now.module.now repair.now.patches.now table.now }
    ensures value { IfOk result (λ made. value_of made ≡ new_value repair.now.module.now (tables_of repair.now.module.now) repair.now.patches.now table.now (value_of value)) }
    ensures typed { IfOk result (λ made. IsOf table.now (value_of made)) }
{
    let mut moved = value;
    map_places(&mut moved, &repair.moves);
    put_functions(alloc, repair, table, moved)
}
