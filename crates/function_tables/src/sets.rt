//! Sets of blocks, with new parts behind the blocks.

ghost use Rattle.std.specs.Prelude.{◌≡◌, ◌<◌, ◌^◌, ◌++◌, length, map, IfOk, OnOk};
ghost use Rattle.aux_types.specs.Shape.{Plain, Set};
ghost use Rattle.aux_types.specs.declared.name.Scalar.TheVariants as Scalar;
ghost use Rattle.aux_codec.specs.Spelling.{Each, EachEntry, HasType};
ghost use Rattle.aux_codec.specs.Value.{Id, Many, Values, count, entries, entry, entry_of, no_entry, value_of, values};
ghost use Rattle.edge_repair.specs.Sets.{sets_with_parts, with_parts};
ghost use Rattle.function_tables.specs.Functions.{HasFewParts};
ghost use Rattle.function_tables.specs.Later.{later_of};

use crate::later::LaterParts;
use aux_codec::{AuxPair, AuxValue};
use std::alloc::{AllocError, Global};
use uuid::Uuid;

/// Identifiers behind other members.
fn push_ids(members: &mut Vec<AuxValue>, ids: &[Uuid]) -> Result<(), AllocError>
    ensures { OnOk result (map value_of members.new.items ≡ map value_of members.old.items ++ map Id ids.now) }
{
    for id in ids {
        members.push(AuxValue::Id(*id))?;
    }
    Ok(())
}

/// The identifier that a value is.
fn id_in(value: &AuxValue) -> Uuid
    requires { HasType (Plain Scalar.Id) (value_of value.now) }
    ensures { value_of value.now ≡ Id result }
{
    match value {
        AuxValue::Id(id) => *id,
        _ => unreachable!(),
    }
}

/// The members of a set of blocks, with the later parts of each directly behind it.
fn with_parts(
    alloc: Global,
    later: &LaterParts,
    members: &[AuxValue],
) -> Result<Vec<AuxValue>, AllocError>
    requires { Each (HasType (Plain Scalar.Id)) (values (map value_of members.now)) }
    ensures members { IfOk result (λ made. values (map value_of made.items) ≡ with_parts (later_of later.now) (values (map value_of members.now))) }
    ensures few { IfOk result (λ made. length made.items < 2 ^ 64) }
{
    let mut made = Vec::new(alloc);
    for member in members {
        let id = id_in(member);
        made.push(AuxValue::Id(id))?;
        push_ids(&mut made, later.of(&id))?;
    }
    Ok(made)
}

/// The set of blocks that an entry has, with new parts.
fn split_set(alloc: Global, later: &LaterParts, set: &AuxValue) -> Result<AuxValue, AllocError>
    requires { HasType (Set (Plain Scalar.Id)) (value_of set.now) }
    ensures set { IfOk result (λ made. (xs : Values) → value_of set.now ≡ Many xs → value_of made ≡ Many (with_parts (later_of later.now) xs)) }
    ensures few { OnOk result ((xs : Values) → value_of set.now ≡ Many xs → count (with_parts (later_of later.now) xs) < 2 ^ 64) }
{
    match set {
        AuxValue::Many(members) => {
            let made = with_parts(alloc, later, members.as_slice())?;
            Ok(AuxValue::Many(made))
        }
        _ => unreachable!(),
    }
}

/// An entry of a function's blocks, with new parts.
fn split_entry(alloc: Global, later: &LaterParts, pair: &AuxPair) -> Result<AuxPair, AllocError>
    requires key { HasType (Plain Scalar.Id) (value_of pair.now.key) }
    requires set { HasType (Set (Plain Scalar.Id)) (value_of pair.now.value) }
    ensures entry { IfOk result (λ made. entry (entry_of made).0 (entry_of made).1 no_entry ≡ sets_with_parts (later_of later.now) (entry (value_of pair.now.key) (value_of pair.now.value) no_entry)) }
    ensures few { OnOk result (HasFewParts (later_of later.now) (entry (value_of pair.now.key) (value_of pair.now.value) no_entry)) }
{
    let id = id_in(&pair.key);
    let value = split_set(alloc, later, &pair.value)?;
    Ok(AuxPair {
        key: AuxValue::Id(id),
        value,
    })
}

/// The entries of the functions' blocks, with the later parts of each block directly behind it.
pub fn split_sets(
    alloc: Global,
    later: &LaterParts,
    pairs: &[AuxPair],
) -> Result<Vec<AuxPair>, AllocError>
    requires { EachEntry (HasType (Plain Scalar.Id)) (HasType (Set (Plain Scalar.Id))) (entries (map entry_of pairs.now)) }
    ensures entries { IfOk result (λ made. entries (map entry_of made.items) ≡ sets_with_parts (later_of later.now) (entries (map entry_of pairs.now))) }
    ensures few { OnOk result (HasFewParts (later_of later.now) (entries (map entry_of pairs.now))) }
{
    let mut made = Vec::new(alloc);
    for pair in pairs {
        let entry = split_entry(alloc, later, pair)?;
        made.push(entry)?;
    }
    Ok(made)
}
