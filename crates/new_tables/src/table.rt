//! One table of a module that is repaired.

ghost use Rattle.std.specs.Prelude.{◌≡◌, Contains, Some, IfOk, IfSome};
ghost use Rattle.std.specs.Option.{option_map};
ghost use Rattle.aux_codec.specs.Reading.{read_value};
ghost use Rattle.aux_codec.specs.Spelling.{spelling, HasType};
ghost use Rattle.aux_codec.specs.Value.{value_of};
ghost use Rattle.aux_tables.specs.ModuleTables.{result_option, shape_of_table, table_value, tables_of};
ghost use Rattle.aux_types.specs.Shape.{shape_of, IsNamed};
ghost use Rattle.edge_repair.specs.Repaired.{new_value, repaired_table, value_bytes};
ghost use Rattle.new_tables.specs.Repairing.{IsReady, StaysApart};

use crate::repair::{Repair, new_value};
use aux_codec::{AuxValue, decode_aux, encode_aux};
use aux_types::{AuxType, parse_type};
use gr_base::{Bytes, End, Text};
use gt_model::Aux;
use std::alloc::{AllocError, Global};

/// What bytes hold by a type, if they are decoded.
fn value_in(alloc: Global, of: &AuxType, bytes: &[u8]) -> Result<Option<AuxValue>, AllocError>
    requires { IsNamed (shape_of of.now) }
    ensures value { IfOk result (λ value. option_map value_of value ≡ result_option (read_value (shape_of of.now) bytes.now)) }
    ensures typed { IfOk result (λ value. IfSome value (λ x. HasType (shape_of of.now) (value_of x))) }
{
    match decode_aux(alloc, of, bytes) {
        Ok(value) => Ok(Some(value)),
        Err(End::Fault(_)) => Ok(None),
        Err(End::Memory) => Err(AllocError),
    }
}

/// The bytes of a table that holds a value.
fn bytes_of(
    alloc: Global,
    repair: &Repair<'_>,
    table: &Aux,
    of: &AuxType,
    value: AuxValue,
) -> Result<Bytes, AllocError>
    requires ready { IsReady repair.now }
    requires there { Contains repair.now.module.now.aux table.now }
    requires apart { StaysApart repair.now.module.now repair.now.patches.now table.now }
    requires named { IsNamed (shape_of of.now) }
    requires shape { shape_of_table table.now ≡ Some (shape_of of.now) }
    requires held { table_value table.now ≡ Some (value_of value) }
    requires typed { HasType (shape_of of.now) (value_of value) }
    ensures { IfOk result (λ bytes. bytes ≡ spelling (shape_of of.now) (new_value repair.now.module.now (tables_of repair.now.module.now) repair.now.patches.now table.now (value_of value))) }
{
    let made = new_value(alloc, repair, table, value)?;
    let bytes = encode_aux(alloc, of, &made)?;
    Ok(bytes)
}

/// The bytes of a table of a type that is parsed. What isn't decoded stays.
fn value_bytes(
    alloc: Global,
    repair: &Repair<'_>,
    table: &Aux,
    of: &AuxType,
) -> Result<Bytes, AllocError>
    requires ready { IsReady repair.now }
    requires there { Contains repair.now.module.now.aux table.now }
    requires apart { StaysApart repair.now.module.now repair.now.patches.now table.now }
    requires named { IsNamed (shape_of of.now) }
    requires shape { shape_of_table table.now ≡ Some (shape_of of.now) }
    ensures { IfOk result (λ bytes. bytes ≡ value_bytes repair.now.module.now (tables_of repair.now.module.now) repair.now.patches.now table.now (shape_of of.now)) }
{
    let held = value_in(alloc, of, table.bytes.as_slice())?;
    match held {
        Some(value) => bytes_of(alloc, repair, table, of, value),
        None => Bytes::from_slice(alloc, table.bytes.as_slice()),
    }
}

/// The bytes of a table. Those of another type stay.
fn table_bytes(alloc: Global, repair: &Repair<'_>, table: &Aux) -> Result<Bytes, AllocError>
    requires ready { IsReady repair.now }
    requires there { Contains repair.now.module.now.aux table.now }
    requires apart { StaysApart repair.now.module.now repair.now.patches.now table.now }
    ensures { IfOk result (λ bytes. bytes ≡ (repaired_table repair.now.module.now (tables_of repair.now.module.now) repair.now.patches.now table.now).bytes) }
{
    match parse_type(alloc, table.type_name.as_str()) {
        Ok(of) => value_bytes(alloc, repair, table, &of),
        Err(End::Fault(_)) => Bytes::from_slice(alloc, table.bytes.as_slice()),
        Err(End::Memory) => Err(AllocError),
    }
}

/// A table of a repaired module.
pub fn new_table(alloc: Global, repair: &Repair<'_>, table: &Aux) -> Result<Aux, AllocError>
    requires ready { IsReady repair.now }
    requires there { Contains repair.now.module.now.aux table.now }
    requires apart { StaysApart repair.now.module.now repair.now.patches.now table.now }
    ensures { IfOk result (λ made. made ≡ repaired_table repair.now.module.now (tables_of repair.now.module.now) repair.now.patches.now table.now) }
{
    let bytes = table_bytes(alloc, repair, table)?;
    let name = Text::from_str(alloc, table.name.as_str())?;
    let type_name = Text::from_str(alloc, table.type_name.as_str())?;
    Ok(Aux {
        name,
        type_name,
        bytes,
    })
}
