ghost use Rattle.std.specs.Prelude.{◌≡◌, ◌≤◌, ◌-◌, ◌||◌, ℕ, List, [], length, map, take, Ok, IfOk};
ghost use Rattle.std.specs.List.{list_any};
ghost use Rattle.std.specs.Str.{bytes_eq};
ghost use Rattle.aux_types.specs.Gives.{Gives};
ghost use Rattle.aux_types.specs.Shape.{Sequence, Set, Mapping, Tuple, Variant, shape_of, shapes, IsNamed};
ghost use Rattle.aux_codec.specs.Value.{Value, value_of, entry_of, values, entries};
ghost use Rattle.aux_codec.specs.Spelling.{spelling, aux_bytes};
ghost use Rattle.aux_codec.specs.Reading.{fresh_at, members, distinct, pairs, parts_at, value_at, read_value};

use crate::part::part;
use crate::scalar::scalar_at;
use crate::seen::Seen;
use crate::unit::{Read, place, u64_at};
use crate::value::{AuxPair, AuxValue};
use aux_types::{AuxType, Kind};
use gr_base::{AuxFault, End};
use std::alloc::Global;

/// The bytes before those that are left.
fn taken<'a>(bytes: &'a [u8], left: &[u8]) -> &'a [u8]
    requires { length left.now ≤ length bytes.now }
    ensures { result.now ≡ take (length bytes.now - length left.now) bytes.now }
{
    &bytes[..bytes.len() - left.len()]
}

/// So many members.
#[cycle(value_at)]
fn members<'a>(
    alloc: Global,
    total: usize,
    of: &AuxType,
    count: u64,
    bytes: &'a [u8],
) -> Read<'a, Vec<AuxValue>>
    ensures { Gives (λ x. (values (map value_of x.0.items), x.1.now)) result (members (value_at total (shape_of of.now)) count bytes.now) }
{
    let mut found = Vec::new(alloc);
    let mut rest = bytes;
    for _ in 0..count {
        let (value, after) = value_at(alloc, total, of, rest)?;
        found.push(value)?;
        rest = after;
    }
    Ok((found, rest))
}

/// The value at the front, unless one with its bytes was seen before. It is seen from then on.
#[cycle(value_at)]
fn fresh_at<'a>(
    alloc: Global,
    total: usize,
    of: &AuxType,
    seen: &mut Seen<'a>,
    bytes: &'a [u8],
) -> Read<'a, AuxValue>
    ensures read { Gives (λ x. (value_of x.0, x.1.now)) result (fresh_at total (value_at total (shape_of of.now)) (spelling (shape_of of.now)) seen.old bytes.now) }
    ensures has { IfOk result (λ x. (q : List ℕ) → list_any (bytes_eq q) seen.new ≡ (bytes_eq q (spelling (shape_of of.now) (value_of x.0)) || list_any (bytes_eq q) seen.old)) }
{
    let (value, after) = value_at(alloc, total, of, bytes)?;
    if !seen.insert(taken(bytes, after))? {
        return Err(End::Fault(AuxFault::Duplicate(place(total, bytes))));
    }
    Ok((value, after))
}

/// So many members, none of which comes twice.
#[cycle(value_at)]
fn distinct<'a>(
    alloc: Global,
    total: usize,
    of: &AuxType,
    count: u64,
    bytes: &'a [u8],
) -> Read<'a, Vec<AuxValue>>
    ensures { Gives (λ x. (values (map value_of x.0.items), x.1.now)) result (distinct total (value_at total (shape_of of.now)) (spelling (shape_of of.now)) [] count bytes.now) }
{
    let mut found = Vec::new(alloc);
    let mut seen = Seen::new(alloc);
    let mut rest = bytes;
    for _ in 0..count {
        let (value, after) = fresh_at(alloc, total, of, &mut seen, rest)?;
        found.push(value)?;
        rest = after;
    }
    Ok((found, rest))
}

fn pair(key: AuxValue, value: AuxValue) -> AuxPair
    ensures { entry_of result ≡ (value_of key, value_of value) }
{
    AuxPair { key, value }
}

/// So many entries, none of whose keys comes twice.
#[cycle(value_at)]
fn pairs<'a>(
    alloc: Global,
    total: usize,
    key_type: &AuxType,
    value_type: &AuxType,
    count: u64,
    bytes: &'a [u8],
) -> Read<'a, Vec<AuxPair>>
    ensures { Gives (λ x. (entries (map entry_of x.0.items), x.1.now)) result (pairs total (value_at total (shape_of key_type.now)) (spelling (shape_of key_type.now)) (value_at total (shape_of value_type.now)) [] count bytes.now) }
{
    let mut found = Vec::new(alloc);
    let mut seen = Seen::new(alloc);
    let mut rest = bytes;
    for _ in 0..count {
        let (key, after) = fresh_at(alloc, total, key_type, &mut seen, rest)?;
        let (value, after) = value_at(alloc, total, value_type, after)?;
        found.push(pair(key, value))?;
        rest = after;
    }
    Ok((found, rest))
}

/// A value for each part.
#[cycle(value_at)]
fn parts_at<'a>(
    alloc: Global,
    total: usize,
    types: &[AuxType],
    bytes: &'a [u8],
) -> Read<'a, Vec<AuxValue>>
    ensures { Gives (λ x. (values (map value_of x.0.items), x.1.now)) result (parts_at total (shapes (map shape_of types.now)) bytes.now) }
{
    let mut found = Vec::new(alloc);
    let mut rest = bytes;
    for of in types {
        let (value, after) = value_at(alloc, total, of, rest)?;
        found.push(value)?;
        rest = after;
    }
    Ok((found, rest))
}

/// A count, and that many members.
#[cycle(value_at)]
fn sequence_at<'a>(
    alloc: Global,
    total: usize,
    inner: &AuxType,
    bytes: &'a [u8],
) -> Read<'a, AuxValue>
    ensures { Gives (λ x. (value_of x.0, x.1.now)) result (value_at total (Sequence (shape_of inner.now)) bytes.now) }
{
    let (count, rest) = u64_at(total, bytes)?;
    let (found, rest) = members(alloc, total, inner, count, rest)?;
    Ok((AuxValue::Many(found), rest))
}

/// A count, and that many members, none of which comes twice.
#[cycle(value_at)]
fn set_at<'a>(alloc: Global, total: usize, inner: &AuxType, bytes: &'a [u8]) -> Read<'a, AuxValue>
    ensures { Gives (λ x. (value_of x.0, x.1.now)) result (value_at total (Set (shape_of inner.now)) bytes.now) }
{
    let (count, rest) = u64_at(total, bytes)?;
    let (found, rest) = distinct(alloc, total, inner, count, rest)?;
    Ok((AuxValue::Many(found), rest))
}

/// A count, and that many entries, none of whose keys comes twice.
#[cycle(value_at)]
fn mapping_at<'a>(
    alloc: Global,
    total: usize,
    key: &AuxType,
    value: &AuxType,
    bytes: &'a [u8],
) -> Read<'a, AuxValue>
    ensures { Gives (λ x. (value_of x.0, x.1.now)) result (value_at total (Mapping (shape_of key.now) (shape_of value.now)) bytes.now) }
{
    let (count, rest) = u64_at(total, bytes)?;
    let (found, rest) = pairs(alloc, total, key, value, count, rest)?;
    Ok((AuxValue::Pairs(found), rest))
}

/// A value for each part.
#[cycle(value_at)]
fn tuple_at<'a>(
    alloc: Global,
    total: usize,
    types: &[AuxType],
    bytes: &'a [u8],
) -> Read<'a, AuxValue>
    ensures { Gives (λ x. (value_of x.0, x.1.now)) result (value_at total (Tuple (shapes (map shape_of types.now))) bytes.now) }
{
    let (found, rest) = parts_at(alloc, total, types, bytes)?;
    Ok((AuxValue::Parts(found), rest))
}

/// The index of a part, and a value of it.
#[cycle(value_at)]
fn variant_at<'a>(
    alloc: Global,
    total: usize,
    types: &[AuxType],
    bytes: &'a [u8],
) -> Read<'a, AuxValue>
    ensures { Gives (λ x. (value_of x.0, x.1.now)) result (value_at total (Variant (shapes (map shape_of types.now))) bytes.now) }
{
    let (index, rest) = u64_at(total, bytes)?;
    let Some(chosen) = part(types, index) else {
        return Err(End::Fault(AuxFault::BadVariant(place(total, bytes))));
    };
    let (value, rest) = value_at(alloc, total, chosen, rest)?;
    Ok((AuxValue::Choice(index, Box::new(alloc, value)?), rest))
}

/// The value at the front.
#[cycle(value_at)]
fn value_at<'a>(alloc: Global, total: usize, of: &AuxType, bytes: &'a [u8]) -> Read<'a, AuxValue>
    ensures { Gives (λ x. (value_of x.0, x.1.now)) result (value_at total (shape_of of.now) bytes.now) }
{
    match of.kind() {
        Kind::Scalar(scalar) => scalar_at(alloc, total, scalar, bytes),
        Kind::Sequence(inner) => sequence_at(alloc, total, inner, bytes),
        Kind::Set(inner) => set_at(alloc, total, inner, bytes),
        Kind::Mapping(key, value) => mapping_at(alloc, total, key, value, bytes),
        Kind::Tuple(types) => tuple_at(alloc, total, types, bytes),
        Kind::Variant(types) => variant_at(alloc, total, types, bytes),
    }
}

/// The value that the bytes spell, all of them.
#[tactic(auto, unfolding(crate::specs::Reading::read_value))]
fn whole(alloc: Global, of: &AuxType, bytes: &[u8]) -> Result<AuxValue, End<AuxFault>>
    ensures { Gives value_of result (read_value (shape_of of.now) bytes.now) }
{
    let (value, rest) = value_at(alloc, bytes.len(), of, bytes)?;
    if !rest.is_empty() {
        return Err(End::Fault(AuxFault::Rest(place(bytes.len(), rest))));
    }
    Ok(value)
}

/// The value that the bytes of a table spell by its type.
pub fn decode_aux(alloc: Global, of: &AuxType, bytes: &[u8]) -> Result<AuxValue, End<AuxFault>>
    // The type has a name.
    requires { IsNamed (shape_of of.now) }
    // What is decoded has the bytes as its own.
    ensures found { IfOk result (λ x. aux_bytes of.now (value_of x) bytes.now) }
    // The value that has the bytes as its own is decoded, unless memory runs out.
    ensures only { (x : Value) → aux_bytes of.now x bytes.now → Gives value_of result (Ok x) }
    // A fault is the first in order of reading.
    ensures exact { Gives value_of result (read_value (shape_of of.now) bytes.now) }
{
    whole(alloc, of, bytes)
}
