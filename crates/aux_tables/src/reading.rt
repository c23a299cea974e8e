//! What a table holds, by the type that it names.

ghost use Rattle.std.specs.Prelude.{◌≡◌, IfOk, IfSome};
ghost use Rattle.std.specs.Option.{option_map};
ghost use Rattle.aux_types.specs.Gives.{Gives};
ghost use Rattle.aux_codec.specs.Places.{places_of};
ghost use Rattle.aux_codec.specs.Value.{value_of};
ghost use Rattle.aux_tables.specs.Found.{places_held};
ghost use Rattle.aux_tables.specs.ModuleTables.{held, table_value, HasOwnKeys};

use aux_codec::{AuxFault, AuxValue, decode_aux};
use aux_types::parse_type;
use gr_base::End;
use gt_model::Aux;
use std::alloc::Global;

/// What a table holds, or its first fault; nothing where its type isn't parsed.
pub(crate) fn read_table(alloc: Global, table: &Aux) -> Result<Option<AuxValue>, End<AuxFault>>
    ensures held { Gives (option_map value_of) result (held table.now) }
    ensures value { IfOk result (λ value. option_map value_of value ≡ table_value table.now) }
    ensures places { IfOk result (λ value. option_map places_of (option_map value_of value) ≡ places_held table.now) }
    ensures keys { IfOk result (λ value. IfSome value (λ x. HasOwnKeys (value_of x))) }
{
    let of = match parse_type(alloc, table.type_name.as_str()) {
        Ok(of) => of,
        Err(End::Fault(_)) => return Ok(None),
        Err(End::Memory) => return Err(End::Memory),
    };
    let value = decode_aux(alloc, &of, table.bytes.as_slice())?;
    Ok(Some(value))
}
