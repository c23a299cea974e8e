//! Intervals by their identifiers.

ghost use Rattle.std.specs.Prelude.{◌≡◌, ℕ, List, IfOk, not, find};
ghost use Rattle.std.specs.Option.{option_copied};
ghost use Rattle.std.specs.Str.{bytes_eq};
ghost use Rattle.indexmap.specs.IndexMap.{get};
ghost use Rattle.indexmap.specs.IndexSet.{contains};
ghost use Rattle.sym_expr.specs.Layouts.{place_in};
ghost use Rattle.layout_plan.specs.Faults.{is_known, unknown_fault, twice_fault};
ghost use Rattle.layout_plan.specs.Answers.{Tells, TellsFault};

use crate::fault::LayoutFault;
use gr_base::End;
use indexmap::{IndexMap, IndexSet};
use std::alloc::{AllocError, Global};
use sym_expr::{PlaceAt, ShapeSpot};
use uuid::Uuid;

/// The intervals of a shape.
fn known_intervals(alloc: Global, spots: &[ShapeSpot]) -> Result<IndexSet<Uuid>, AllocError>
    ensures { IfOk result (λ known. (id : List ℕ) → contains bytes_eq known id ≡ is_known spots.now id) }
{
    let mut known = IndexSet::new(alloc);
    for spot in spots {
        known.insert(spot.interval)?;
    }
    Ok(known)
}

fn first_unknown<'a>(known: &IndexSet<Uuid>, places: &'a [PlaceAt]) -> Option<&'a PlaceAt>
    ensures { option_copied result ≡ find (λ p. not (contains bytes_eq known.now p.interval)) places.now }
{
    places.iter().find(|place| !known.contains(&place.interval))
}

pub fn check_known(
    alloc: Global,
    spots: &[ShapeSpot],
    places: &[PlaceAt],
) -> Result<(), End<LayoutFault>>
    ensures { Tells result (unknown_fault spots.now places.now) }
{
    let known = known_intervals(alloc, spots)?;
    match first_unknown(&known, places) {
        Some(place) => Err(End::Fault(LayoutFault::Unknown(place.interval))),
        None => Ok(()),
    }
}

/// The address of each interval that has a place.
pub fn index_places(
    alloc: Global,
    places: &[PlaceAt],
) -> Result<IndexMap<Uuid, u64>, End<LayoutFault>>
    ensures fault { Tells result (twice_fault places.now) }
    ensures places { IfOk result (λ index. (id : List ℕ) → get bytes_eq index id ≡ place_in places.now id) }
{
    let mut index = IndexMap::new(alloc);
    for place in places {
        if index.insert(place.interval, place.at)?.is_some() {
            return Err(End::Fault(LayoutFault::Twice(place.interval)));
        }
    }
    Ok(index)
}
