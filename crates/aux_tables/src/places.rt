//! The Places in what a table holds.

ghost use Rattle.std.specs.Prelude.{◌≡◌, ◌∷◌, ◌++◌, [], map, IfOk, OnOk};
ghost use Rattle.std.specs.Option.{option_map};
ghost use Rattle.aux_codec.specs.Places.{places_of, places_of_each, places_of_entries};
ghost use Rattle.aux_codec.specs.Value.{value_of, entry_of, values, entries};

use aux_codec::{AuxPair, AuxValue, Place};
use gr_base::Seq;
use std::alloc::{AllocError, Global};

#[cycle(put_places)]
fn put_each(out: &mut Vec<Place>, members: &[AuxValue]) -> Result<(), AllocError>
    ensures { OnOk result (out.new.items ≡ out.old.items ++ places_of_each (values (map value_of members.now))) }
{
    for member in members {
        put_places(out, member)?;
    }
    Ok(())
}

#[cycle(put_places)]
fn put_entries(out: &mut Vec<Place>, pairs: &[AuxPair]) -> Result<(), AllocError>
    ensures { OnOk result (out.new.items ≡ out.old.items ++ places_of_entries (entries (map entry_of pairs.now))) }
{
    for pair in pairs {
        put_places(out, &pair.key)?;
        put_places(out, &pair.value)?;
    }
    Ok(())
}

fn put_place(out: &mut Vec<Place>, place: Place) -> Result<(), AllocError>
    ensures { OnOk result (out.new.items ≡ out.old.items ++ place ∷ []) }
{
    out.push(place)?;
    Ok(())
}

/// The Places of a value at the end, in order of reading.
#[cycle(put_places)]
fn put_places(out: &mut Vec<Place>, value: &AuxValue) -> Result<(), AllocError>
    ensures { OnOk result (out.new.items ≡ out.old.items ++ places_of (value_of value.now)) }
{
    match value {
        AuxValue::Place(place) => put_place(out, *place),
        AuxValue::Many(members) => put_each(out, members.as_slice()),
        AuxValue::Pairs(pairs) => put_entries(out, pairs.as_slice()),
        AuxValue::Parts(parts) => put_each(out, parts.as_slice()),
        AuxValue::Choice(_, chosen) => put_places(out, chosen),
        _ => Ok(()),
    }
}

/// The Places in what a table holds, in order of reading; nothing where its type isn't parsed.
pub(crate) fn places_in(
    alloc: Global,
    value: &Option<AuxValue>,
) -> Result<Option<Seq<Place>>, AllocError>
    ensures { IfOk result (λ places. places ≡ option_map places_of (option_map value_of value.now)) }
{
    match value {
        None => Ok(None),
        Some(value) => {
            let mut places = Vec::new(alloc);
            put_places(&mut places, value)?;
            Ok(Some(Seq::from_vec(places)))
        }
    }
}
