//! The entries of the two tables, each as a map.

ghost use Rattle.std.specs.Prelude.{◌≡◌, [], map, IfOk, IfSome};
ghost use Rattle.std.specs.Option.{option_map, option_map_or};
ghost use Rattle.aux_codec.specs.Spelling.{HasDistinctKeys};
ghost use Rattle.aux_codec.specs.Value.{entry_of, entries, value_of};
ghost use Rattle.aux_tables.specs.ModuleTables.{number_entry, numbers_in, numbers_of, size_entry, sizes_in, sizes_of, HasOwnKeys};

use aux_codec::{AuxPair, AuxValue};
use indexmap::IndexMap;
use std::alloc::{AllocError, Global};
use uuid::Uuid;

fn number_entry(pair: &AuxPair) -> Option<(Uuid, u64)>
    ensures { result ≡ number_entry (value_of pair.now.key) (value_of pair.now.value) }
{
    match (&pair.key, &pair.value) {
        (AuxValue::Id(id), AuxValue::Number(number)) => Some((*id, *number)),
        _ => None,
    }
}

fn numbers_in(alloc: Global, pairs: &[AuxPair]) -> Result<IndexMap<Uuid, u64>, AllocError>
    requires { HasDistinctKeys (entries (map entry_of pairs.now)) }
    ensures { IfOk result (λ numbers. numbers.entries ≡ numbers_in (entries (map entry_of pairs.now))) }
{
    let mut numbers = IndexMap::with_capacity(alloc, pairs.len())?;
    for pair in pairs {
        if let Some((id, number)) = number_entry(pair) {
            numbers.insert(id, number)?;
        }
    }
    Ok(numbers)
}

/// The numbers that a mapping gives to identifiers.
fn numbers_of(alloc: Global, value: &AuxValue) -> Result<IndexMap<Uuid, u64>, AllocError>
    requires { HasOwnKeys (value_of value.now) }
    ensures { IfOk result (λ numbers. numbers.entries ≡ numbers_of (value_of value.now)) }
{
    match value {
        AuxValue::Pairs(pairs) => numbers_in(alloc, pairs.as_slice()),
        _ => Ok(IndexMap::new(alloc)),
    }
}

/// The same of what a table holds, if it is decoded.
pub(crate) fn numbers_if(
    alloc: Global,
    value: &Option<AuxValue>,
) -> Result<IndexMap<Uuid, u64>, AllocError>
    requires { IfSome value.now (λ x. HasOwnKeys (value_of x)) }
    ensures { IfOk result (λ numbers. numbers.entries ≡ option_map_or numbers_of (option_map value_of value.now) []) }
{
    match value {
        None => Ok(IndexMap::new(alloc)),
        Some(value) => numbers_of(alloc, value),
    }
}

fn size_entry(pair: &AuxPair) -> Option<((Uuid, u64), u64)>
    ensures { result ≡ size_entry (value_of pair.now.key) (value_of pair.now.value) }
{
    match (&pair.key, &pair.value) {
        (AuxValue::Place(place), AuxValue::Number(size)) => Some(((place.id, place.offset), *size)),
        _ => None,
    }
}

fn sizes_in(alloc: Global, pairs: &[AuxPair]) -> Result<IndexMap<(Uuid, u64), u64>, AllocError>
    requires { HasDistinctKeys (entries (map entry_of pairs.now)) }
    ensures { IfOk result (λ sizes. sizes.entries ≡ sizes_in (entries (map entry_of pairs.now))) }
{
    let mut sizes = IndexMap::with_capacity(alloc, pairs.len())?;
    for pair in pairs {
        if let Some((place, size)) = size_entry(pair) {
            sizes.insert(place, size)?;
        }
    }
    Ok(sizes)
}

/// The numbers that a mapping gives to Places.
fn sizes_of(alloc: Global, value: &AuxValue) -> Result<IndexMap<(Uuid, u64), u64>, AllocError>
    requires { HasOwnKeys (value_of value.now) }
    ensures { IfOk result (λ sizes. sizes.entries ≡ sizes_of (value_of value.now)) }
{
    match value {
        AuxValue::Pairs(pairs) => sizes_in(alloc, pairs.as_slice()),
        _ => Ok(IndexMap::new(alloc)),
    }
}

/// The same of what a table holds, if it is decoded.
pub(crate) fn sizes_if(
    alloc: Global,
    value: &Option<AuxValue>,
) -> Result<IndexMap<(Uuid, u64), u64>, AllocError>
    requires { IfSome value.now (λ x. HasOwnKeys (value_of x)) }
    ensures { IfOk result (λ sizes. sizes.entries ≡ option_map_or sizes_of (option_map value_of value.now) []) }
{
    match value {
        None => Ok(IndexMap::new(alloc)),
        Some(value) => sizes_of(alloc, value),
    }
}
