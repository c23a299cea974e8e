ghost use Rattle.std.specs.Prelude.{◌≡◌};
ghost use Rattle.aux_types.specs.Gives.{Gives};
ghost use Rattle.aux_codec.specs.Reading.{scalar_at};
ghost use Rattle.aux_types.specs.declared.name.Scalar.TheVariants as s;
ghost use Rattle.aux_codec.specs.Value.{value_of};

use crate::unit::{Read, place, truth, u8_at, u16_at, u32_at, u64_at, unit, uuid};
use crate::value::{AuxValue, Place};
use aux_types::Scalar;
use gr_base::{AuxFault, End, Text};
use std::alloc::Global;
use std::str;

/// A count of bytes, and a text of that many.
#[tactic(auto, unfolding(crate::specs::Reading::string))]
fn text_at(alloc: Global, total: usize, bytes: &[u8]) -> Read<'_, AuxValue>
    ensures { Gives (λ x. (value_of x.0, x.1.now)) result (scalar_at total s.Str bytes.now) }
{
    let (size, content) = u64_at(total, bytes)?;
    let (front, rest) = unit(total, size as usize, content)?;
    match str::from_utf8(front) {
        Ok(text) => Ok((AuxValue::Str(Text::from_str(alloc, text)?), rest)),
        Err(_) => Err(End::Fault(AuxFault::BadUtf8(place(total, content)))),
    }
}

fn id_at(total: usize, bytes: &[u8]) -> Read<'_, AuxValue>
    ensures { Gives (λ x. (value_of x.0, x.1.now)) result (scalar_at total s.Id bytes.now) }
{
    let (front, rest) = unit(total, 16, bytes)?;
    Ok((AuxValue::Id(uuid(front)), rest))
}

/// An identifier, and an offset.
#[tactic(auto, unfolding(crate::specs::Reading::offset))]
fn place_at(total: usize, bytes: &[u8]) -> Read<'_, AuxValue>
    ensures { Gives (λ x. (value_of x.0, x.1.now)) result (scalar_at total s.Offset bytes.now) }
{
    let (front, rest) = unit(total, 16, bytes)?;
    let (offset, rest) = u64_at(total, rest)?;
    let id = uuid(front);
    Ok((AuxValue::Place(Place { id, offset }), rest))
}

/// A value of a type with no types inside it.
pub fn scalar_at(alloc: Global, total: usize, scalar: Scalar, bytes: &[u8]) -> Read<'_, AuxValue>
    ensures { Gives (λ x. (value_of x.0, x.1.now)) result (scalar_at total scalar bytes.now) }
{
    match scalar {
        Scalar::Str => text_at(alloc, total, bytes),
        Scalar::Bool => truth(total, bytes).map(|(b, rest)| (AuxValue::Bool(b), rest)),
        Scalar::Id => id_at(total, bytes),
        Scalar::Addr => u64_at(total, bytes).map(|(n, rest)| (AuxValue::Number(n), rest)),
        Scalar::Offset => place_at(total, bytes),
        Scalar::I8 => u8_at(total, bytes).map(|(n, rest)| (
            AuxValue::Signed(i64::from(n.cast_signed())),
            rest,
        )),
        Scalar::I16 => u16_at(total, bytes).map(|(n, rest)| (
            AuxValue::Signed(i64::from(n.cast_signed())),
            rest,
        )),
        Scalar::I32 => u32_at(total, bytes).map(|(n, rest)| (
            AuxValue::Signed(i64::from(n.cast_signed())),
            rest,
        )),
        Scalar::I64 => {
            u64_at(total, bytes).map(|(n, rest)| (AuxValue::Signed(n.cast_signed()), rest))
        }
        Scalar::U8 => u8_at(total, bytes).map(|(n, rest)| (AuxValue::Number(u64::from(n)), rest)),
        Scalar::U16 => u16_at(total, bytes).map(|(n, rest)| (AuxValue::Number(u64::from(n)), rest)),
        Scalar::U32 => u32_at(total, bytes).map(|(n, rest)| (AuxValue::Number(u64::from(n)), rest)),
        Scalar::U64 => u64_at(total, bytes).map(|(n, rest)| (AuxValue::Number(n), rest)),
        Scalar::Four => u32_at(total, bytes).map(|(n, rest)| (AuxValue::Four(n), rest)),
        Scalar::Eight => u64_at(total, bytes).map(|(n, rest)| (AuxValue::Eight(n), rest)),
    }
}
