//! The checks of the auxiliary tables.

ghost use Rattle.std.specs.Prelude.{◌≡◌, List, [], ◌∷◌, ◌++◌, find, map, ⊤};
ghost use Rattle.std.specs.Str.{bytes_eq};
ghost use Rattle.indexmap.specs.IndexMap.{get};
ghost use Rattle.gt_model.specs.declared.tables.Aux.{Aux as AuxOf};
ghost use Rattle.aux_tables.specs.Found.{places_held, IsFound};
ghost use Rattle.ir_check.specs.Faults.{aux_fault};
ghost use Rattle.ir_check.specs.Outcomes.{Ends};
ghost use Rattle.ir_check.specs.Part.{is_past_in};
ghost use Rattle.ir_check.specs.Spans.{first_in};
ghost use Rattle.ir_check.specs.TablesRead.{bad_place_in, bad_place_of, past_in};

use crate::part::LoadedPart;
use aux_codec::Place;
use aux_tables::Found;
use gr_base::{End, Seq, Text};
use gt_model::Aux;
use node_arena::CheckFault;
use std::alloc::Global;

/// Decodes one table more.
fn add_table(alloc: Global, found: &mut Found, table: &Aux) -> Result<(), End<CheckFault>>
    ensures { Ends result (aux_fault table.now) (λ _. (before : List AuxOf) → IsFound before found.old → IsFound (before ++ table.now ∷ []) found.new) }
{
    match found.add(alloc, table) {
        Ok(()) => Ok(()),
        Err(End::Memory) => Err(End::Memory),
        Err(End::Fault(fault)) => {
            let name = Text::from_str(alloc, table.name.as_str())?;
            Err(End::Fault(CheckFault::Aux(name, fault)))
        }
    }
}

/// What is found in the tables, each of which is decoded.
pub(crate) fn read_tables(alloc: Global, tables: &[Aux]) -> Result<Found, End<CheckFault>>
    ensures { Ends result (first_in aux_fault tables.now) (IsFound tables.now) }
{
    let mut found = Found::new(alloc);
    for table in tables {
        if let Err(end) = add_table(alloc, &mut found, table) {
            return Err(end);
        }
    }
    Ok(found)
}

fn first_past(part: &LoadedPart, places: &[Place]) -> Option<Place>
    ensures { result ≡ find (is_past_in (get bytes_eq part.now.sizes) (get bytes_eq part.now.sites)) places.now }
{
    places.iter().copied().find(|place| part.is_past(place))
}

fn past_in(part: &LoadedPart, places: &Option<Seq<Place>>) -> Option<Place>
    ensures { result ≡ past_in (is_past_in (get bytes_eq part.now.sizes) (get bytes_eq part.now.sites)) places.now }
{
    match places {
        None => None,
        Some(places) => first_past(part, places.as_slice()),
    }
}

fn check_places_in(
    alloc: Global,
    part: &LoadedPart,
    table: &Aux,
    places: &Option<Seq<Place>>,
) -> Result<(), End<CheckFault>>
    ensures { Ends result (bad_place_in (is_past_in (get bytes_eq part.now.sizes) (get bytes_eq part.now.sites)) table.now.name places.now) (λ _. ⊤) }
{
    match past_in(part, places) {
        None => Ok(()),
        Some(place) => {
            let name = Text::from_str(alloc, table.name.as_str())?;
            Err(End::Fault(CheckFault::BadPlace(name, place.id, place.offset)))
        }
    }
}

/// Whether no Place in the tables, which were read, is past what it names.
pub(crate) fn check_places(
    alloc: Global,
    part: &LoadedPart,
    tables: &[Aux],
    all: &[Option<Seq<Place>>],
) -> Result<(), End<CheckFault>>
    requires { all.now ≡ map places_held tables.now }
    ensures { Ends result (first_in (bad_place_of (is_past_in (get bytes_eq part.now.sizes) (get bytes_eq part.now.sites))) tables.now) (λ _. ⊤) }
{
    for (k, table) in tables.iter().enumerate() {
        if let Err(end) = check_places_in(alloc, part, table, &all[k]) {
            return Err(end);
        }
    }
    Ok(())
}
