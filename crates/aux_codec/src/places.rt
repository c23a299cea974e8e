ghost use Rattle.std.specs.Prelude.{◌≡◌, map};
ghost use Rattle.aux_types.specs.Shape.{Shape};
ghost use Rattle.aux_types.specs.declared.name.Scalar.TheVariants as Scalar;
ghost use Rattle.aux_codec.specs.declared.value.Place.{Place};
ghost use Rattle.aux_codec.specs.Value.{At, value_of, entry_of, values, entries};
ghost use Rattle.aux_codec.specs.Spelling.{HasType, ScalarHasType};
ghost use Rattle.aux_codec.specs.Places.{places_of, places_of_each, places_of_entries, with_places, each_with_places, entries_with_places, IsInjectiveOn, AreOffsets};

use crate::value::{AuxPair, AuxValue, Place};

/// Where each Place goes.
pub trait Places {
    ghost placed: { Self → Place → Place };

    fn place(&self, at: &Place) -> Place
        ensures { result ≡ placed self.now at.now };
}

/// The Place that one goes to, which can be written as any other.
fn new_place<P: Places>(at: &Place, to: &P) -> Place
    ensures place { result ≡ P.placed to.now at.now }
    ensures fits { ScalarHasType Scalar.Offset (At result) }
{
    to.place(at)
}

#[cycle(map_value)]
fn map_each<P: Places>(members: &mut [AuxValue], to: &P)
    ensures value { values (map value_of members.new) ≡ each_with_places (P.placed to.now) (values (map value_of members.old)) }
    ensures fit { AreOffsets (P.placed to.now) (places_of_each (values (map value_of members.old))) }
{
    for member in members.iter_mut() {
        map_value(member, to);
    }
}

#[cycle(map_value)]
fn map_entries<P: Places>(pairs: &mut [AuxPair], to: &P)
    ensures value { entries (map entry_of pairs.new) ≡ entries_with_places (P.placed to.now) (entries (map entry_of pairs.old)) }
    ensures fit { AreOffsets (P.placed to.now) (places_of_entries (entries (map entry_of pairs.old))) }
{
    for pair in pairs.iter_mut() {
        map_value(&mut pair.key, to);
        map_value(&mut pair.value, to);
    }
}

#[cycle(map_value)]
fn map_boxed<P: Places>(value: &mut Box<AuxValue>, to: &P)
    ensures value { value_of value.new.value ≡ with_places (P.placed to.now) (value_of value.old.value) }
    ensures fit { AreOffsets (P.placed to.now) (places_of (value_of value.old.value)) }
{
    map_value(value, to);
}

#[cycle(map_value)]
fn map_value<P: Places>(value: &mut AuxValue, to: &P)
    ensures value { value_of value.new ≡ with_places (P.placed to.now) (value_of value.old) }
    ensures fit { AreOffsets (P.placed to.now) (places_of (value_of value.old)) }
{
    match value {
        AuxValue::Place(place) => *place = new_place(place, to),
        AuxValue::Many(members) => map_each(members.as_mut_slice(), to),
        AuxValue::Pairs(pairs) => map_entries(pairs.as_mut_slice(), to),
        AuxValue::Parts(parts) => map_each(parts.as_mut_slice(), to),
        AuxValue::Choice(_, chosen) => map_boxed(chosen, to),
        _ => {}
    }
}

/// Replaces each Place of a value, where it stands.
pub fn map_places<P: Places>(value: &mut AuxValue, map: &P)
    // No two Places of the value go to one, so that members and keys stay distinct.
    requires injective { IsInjectiveOn (P.placed map.now) (value_of value.old) }
    ensures value { value_of value.new ≡ with_places (P.placed map.now) (value_of value.old) }
    ensures typed { (t : Shape) → HasType t (value_of value.old) → HasType t (value_of value.new) }
{
    map_value(value, map);
}
