ghost use Rattle.std.specs.Prelude.{◌≡◌, ◌<◌, ◌^◌, ◌++◌, ℕ, List, length, map, FitsSigned, IfOk, OnOk};
ghost use Rattle.std.specs.Int.{w64, to_le_bytes};
ghost use Rattle.aux_types.specs.declared.aux_type.AuxType.{AuxType};
ghost use Rattle.aux_types.specs.Shape.{shape_of, shapes, Plain, IsNamed};
ghost use Rattle.aux_codec.specs.Value.{Value, Number, Signed, Many, Pairs, Parts, Choice, value_of, entry_of, values, entries};
ghost use Rattle.aux_codec.specs.Spelling.{HasType, ScalarHasType, PartsHaveTypes, Each, EachEntry, IsPlain, spelling, scalar_spelling, spell_each, spell_entries, spell_parts, aux_bytes};

use crate::part::part;
use crate::value::{AuxPair, AuxValue, Place};
use aux_types::{AuxType, Kind, Scalar};
use gr_base::Bytes;
use std::alloc::{AllocError, Global};

fn put_u64(out: &mut Vec<u8>, number: u64) -> Result<(), AllocError>
    ensures { OnOk result (out.new.items ≡ out.old.items ++ to_le_bytes w64 number) }
{
    out.extend_from_slice(&number.to_le_bytes())
}

/// A count of bytes, and the bytes.
fn put_text(out: &mut Vec<u8>, text: &[u8]) -> Result<(), AllocError>
    ensures { OnOk result (out.new.items ≡ out.old.items ++ (to_le_bytes w64 (length text.now) ++ text.now)) }
{
    put_u64(out, text.len() as u64)?;
    out.extend_from_slice(text)
}

fn put_place(out: &mut Vec<u8>, place: &Place) -> Result<(), AllocError>
    ensures { OnOk result (out.new.items ≡ out.old.items ++ (place.now.id ++ to_le_bytes w64 place.now.offset)) }
{
    out.extend_from_slice(place.id.as_bytes())?;
    put_u64(out, place.offset)
}

/// The type of a value with no values inside it.
fn scalar_of(of: &AuxType) -> Scalar
    requires { IsPlain (shape_of of.now) }
    ensures { shape_of of.now ≡ Plain result }
{
    match of.kind() {
        Kind::Scalar(scalar) => scalar,
        _ => unreachable!(),
    }
}

fn put_number(out: &mut Vec<u8>, scalar: Scalar, number: u64) -> Result<(), AllocError>
    requires { ScalarHasType scalar (Number number) }
    ensures { OnOk result (out.new.items ≡ out.old.items ++ scalar_spelling scalar (Number number)) }
{
    match scalar {
        Scalar::U8 => out.extend_from_slice(&[number as u8]),
        Scalar::U16 => out.extend_from_slice(&(number as u16).to_le_bytes()),
        Scalar::U32 => out.extend_from_slice(&(number as u32).to_le_bytes()),
        Scalar::Addr => put_u64(out, number),
        Scalar::U64 => put_u64(out, number),
        _ => unreachable!(),
    }
}

fn put_signed(out: &mut Vec<u8>, scalar: Scalar, number: i64) -> Result<(), AllocError>
    requires { ScalarHasType scalar (Signed number) }
    ensures { OnOk result (out.new.items ≡ out.old.items ++ scalar_spelling scalar (Signed number)) }
{
    match scalar {
        Scalar::I8 => out.extend_from_slice(&(number as i8).to_le_bytes()),
        Scalar::I16 => out.extend_from_slice(&(number as i16).to_le_bytes()),
        Scalar::I32 => out.extend_from_slice(&(number as i32).to_le_bytes()),
        Scalar::I64 => out.extend_from_slice(&number.to_le_bytes()),
        _ => unreachable!(),
    }
}

/// The members of a sequence or a set, without their count.
#[cycle(put_value)]
fn put_each(out: &mut Vec<u8>, of: &AuxType, members: &[AuxValue]) -> Result<(), AllocError>
    requires { Each (HasType (shape_of of.now)) (values (map value_of members.now)) }
    ensures { OnOk result (out.new.items ≡ out.old.items ++ spell_each (spelling (shape_of of.now)) (values (map value_of members.now))) }
{
    for member in members {
        put_value(out, of, member)?;
    }
    Ok(())
}

#[cycle(put_value)]
fn put_many(out: &mut Vec<u8>, of: &AuxType, members: &[AuxValue]) -> Result<(), AllocError>
    requires { HasType (shape_of of.now) (Many (values (map value_of members.now))) }
    ensures { OnOk result (out.new.items ≡ out.old.items ++ spelling (shape_of of.now) (Many (values (map value_of members.now)))) }
{
    put_u64(out, members.len() as u64)?;
    match of.kind() {
        Kind::Sequence(inner) => put_each(out, inner, members),
        Kind::Set(inner) => put_each(out, inner, members),
        _ => unreachable!(),
    }
}

/// The entries of a mapping, without their count.
#[cycle(put_value)]
fn put_entries(
    out: &mut Vec<u8>,
    key_type: &AuxType,
    value_type: &AuxType,
    pairs: &[AuxPair],
) -> Result<(), AllocError>
    requires { EachEntry (HasType (shape_of key_type.now)) (HasType (shape_of value_type.now)) (entries (map entry_of pairs.now)) }
    ensures { OnOk result (out.new.items ≡ out.old.items ++ spell_entries (spelling (shape_of key_type.now)) (spelling (shape_of value_type.now)) (entries (map entry_of pairs.now))) }
{
    for pair in pairs {
        put_value(out, key_type, &pair.key)?;
        put_value(out, value_type, &pair.value)?;
    }
    Ok(())
}

#[cycle(put_value)]
fn put_pairs(out: &mut Vec<u8>, of: &AuxType, pairs: &[AuxPair]) -> Result<(), AllocError>
    requires { HasType (shape_of of.now) (Pairs (entries (map entry_of pairs.now))) }
    ensures { OnOk result (out.new.items ≡ out.old.items ++ spelling (shape_of of.now) (Pairs (entries (map entry_of pairs.now)))) }
{
    put_u64(out, pairs.len() as u64)?;
    match of.kind() {
        Kind::Mapping(key, value) => put_entries(out, key, value, pairs),
        _ => unreachable!(),
    }
}

/// A value for each part.
#[cycle(put_value)]
fn put_each_part(out: &mut Vec<u8>, types: &[AuxType], parts: &[AuxValue]) -> Result<(), AllocError>
    requires { PartsHaveTypes (shapes (map shape_of types.now)) (values (map value_of parts.now)) }
    ensures { OnOk result (out.new.items ≡ out.old.items ++ spell_parts (shapes (map shape_of types.now)) (values (map value_of parts.now))) }
{
    for (at, of) in types.iter().enumerate() {
        put_value(out, of, &parts[at])?;
    }
    Ok(())
}

#[cycle(put_value)]
fn put_parts(out: &mut Vec<u8>, of: &AuxType, parts: &[AuxValue]) -> Result<(), AllocError>
    requires { HasType (shape_of of.now) (Parts (values (map value_of parts.now))) }
    ensures { OnOk result (out.new.items ≡ out.old.items ++ spelling (shape_of of.now) (Parts (values (map value_of parts.now)))) }
{
    match of.kind() {
        Kind::Tuple(types) => put_each_part(out, types, parts),
        _ => unreachable!(),
    }
}

#[cycle(put_value)]
fn put_choice(
    out: &mut Vec<u8>,
    of: &AuxType,
    index: u64,
    chosen: &AuxValue,
) -> Result<(), AllocError>
    requires { HasType (shape_of of.now) (Choice index (value_of chosen.now)) }
    ensures { OnOk result (out.new.items ≡ out.old.items ++ spelling (shape_of of.now) (Choice index (value_of chosen.now))) }
{
    put_u64(out, index)?;
    match of.kind() {
        Kind::Variant(types) => match part(types, index) {
            Some(part) => put_value(out, part, chosen),
            None => unreachable!(),
        },
        _ => unreachable!(),
    }
}

/// The bytes of a value at the end.
#[cycle(put_value)]
fn put_value(out: &mut Vec<u8>, of: &AuxType, value: &AuxValue) -> Result<(), AllocError>
    requires { HasType (shape_of of.now) (value_of value.now) }
    ensures { OnOk result (out.new.items ≡ out.old.items ++ spelling (shape_of of.now) (value_of value.now)) }
{
    match value {
        AuxValue::Str(text) => put_text(out, text.as_bytes()),
        AuxValue::Bool(truth) => out.extend_from_slice(&[u8::from(*truth)]),
        AuxValue::Id(id) => out.extend_from_slice(id.as_bytes()),
        AuxValue::Number(number) => put_number(out, scalar_of(of), *number),
        AuxValue::Signed(number) => put_signed(out, scalar_of(of), *number),
        AuxValue::Place(place) => put_place(out, place),
        AuxValue::Four(bits) => out.extend_from_slice(&bits.to_le_bytes()),
        AuxValue::Eight(bits) => put_u64(out, *bits),
        AuxValue::Many(members) => put_many(out, of, members.as_slice()),
        AuxValue::Pairs(pairs) => put_pairs(out, of, pairs.as_slice()),
        AuxValue::Parts(parts) => put_parts(out, of, parts.as_slice()),
        AuxValue::Choice(index, chosen) => put_choice(out, of, *index, chosen),
    }
}

/// The bytes of a value of a type.
pub fn encode_aux(alloc: Global, of: &AuxType, value: &AuxValue) -> Result<Bytes, AllocError>
    // The type has a name.
    requires named { IsNamed (shape_of of.now) }
    // The value is one of the type.
    requires typed { HasType (shape_of of.now) (value_of value.now) }
    ensures { IfOk result (λ bytes. aux_bytes of.now (value_of value.now) bytes) }
{
    let mut out = Vec::new(alloc);
    put_value(&mut out, of, value)?;
    Ok(Bytes::from_vec(out))
}
