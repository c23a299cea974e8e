//! The identifiers that tables name.

ghost use Rattle.std.specs.Prelude.{◌≡◌, ◌++◌, [], ◌∷◌, map, IfOk, OnOk};
ghost use Rattle.std.specs.Option.{option_map};
ghost use Rattle.aux_types.specs.Shape.{shape_of, IsNamed};
ghost use Rattle.aux_codec.specs.Value.{value_of, entry_of, values, entries};
ghost use Rattle.aux_codec.specs.Reading.{read_value};
ghost use Rattle.aux_tables.specs.ModuleTables.{result_option, table_value};
ghost use Rattle.taken_ids.specs.Named.{ids_of, ids_of_each, ids_of_entries, table_ids, tables_ids};

use aux_codec::{AuxPair, AuxValue, decode_aux};
use aux_types::{AuxType, parse_type};
use gr_base::End;
use gt_model::Aux;
use std::alloc::{AllocError, Global};
use uuid::Uuid;

#[cycle(put_ids)]
fn put_each(out: &mut Vec<Uuid>, members: &[AuxValue]) -> Result<(), AllocError>
    ensures { OnOk result (out.new.items ≡ out.old.items ++ ids_of_each (values (map value_of members.now))) }
{
    for member in members {
        put_ids(out, member)?;
    }
    Ok(())
}

#[cycle(put_ids)]
fn put_entries(out: &mut Vec<Uuid>, pairs: &[AuxPair]) -> Result<(), AllocError>
    ensures { OnOk result (out.new.items ≡ out.old.items ++ ids_of_entries (entries (map entry_of pairs.now))) }
{
    for pair in pairs {
        put_ids(out, &pair.key)?;
        put_ids(out, &pair.value)?;
    }
    Ok(())
}

fn put_id(out: &mut Vec<Uuid>, id: Uuid) -> Result<(), AllocError>
    ensures { OnOk result (out.new.items ≡ out.old.items ++ id ∷ []) }
{
    out.push(id)?;
    Ok(())
}

/// The identifiers in a value at the end, in order of reading.
#[cycle(put_ids)]
fn put_ids(out: &mut Vec<Uuid>, value: &AuxValue) -> Result<(), AllocError>
    ensures { OnOk result (out.new.items ≡ out.old.items ++ ids_of (value_of value.now)) }
{
    match value {
        AuxValue::Id(id) => put_id(out, *id),
        AuxValue::Place(place) => put_id(out, place.id),
        AuxValue::Many(members) => put_each(out, members.as_slice()),
        AuxValue::Pairs(pairs) => put_entries(out, pairs.as_slice()),
        AuxValue::Parts(parts) => put_each(out, parts.as_slice()),
        AuxValue::Choice(_, chosen) => put_ids(out, chosen),
        AuxValue::Str(_)
        | AuxValue::Bool(_)
        | AuxValue::Number(_)
        | AuxValue::Signed(_)
        | AuxValue::Four(_)
        | AuxValue::Eight(_) => Ok(()),
    }
}

/// What the bytes of a table hold by its type, if they are decoded.
fn value_in(alloc: Global, of: &AuxType, bytes: &[u8]) -> Result<Option<AuxValue>, AllocError>
    requires { IsNamed (shape_of of.now) }
    ensures { IfOk result (λ value. option_map value_of value ≡ result_option (read_value (shape_of of.now) bytes.now)) }
{
    match decode_aux(alloc, of, bytes) {
        Ok(value) => Ok(Some(value)),
        Err(End::Fault(_)) => Ok(None),
        Err(End::Memory) => Err(AllocError),
    }
}

/// What a table holds, if its type is parsed and it is decoded.
fn table_value(alloc: Global, table: &Aux) -> Result<Option<AuxValue>, AllocError>
    ensures { IfOk result (λ value. option_map value_of value ≡ table_value table.now) }
{
    match parse_type(alloc, table.type_name.as_str()) {
        Ok(of) => value_in(alloc, &of, table.bytes.as_slice()),
        Err(End::Fault(_)) => Ok(None),
        Err(End::Memory) => Err(AllocError),
    }
}

/// The identifiers in a table at the end.
fn put_table(alloc: Global, out: &mut Vec<Uuid>, table: &Aux) -> Result<(), AllocError>
    ensures { OnOk result (out.new.items ≡ out.old.items ++ table_ids table.now) }
{
    match table_value(alloc, table)? {
        Some(value) => put_ids(out, &value),
        None => Ok(()),
    }
}

/// The identifiers that tables name at the end.
pub(crate) fn push_tables(
    alloc: Global,
    out: &mut Vec<Uuid>,
    tables: &[Aux],
) -> Result<(), AllocError>
    ensures { OnOk result (out.new.items ≡ out.old.items ++ tables_ids tables.now) }
{
    for table in tables {
        put_table(alloc, out, table)?;
    }
    Ok(())
}
