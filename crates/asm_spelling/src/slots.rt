//! What a slot of a form is for a word.

ghost use Rattle.std.specs.Prelude.{◌≡◌, ◌++◌, ◌*◌, ◌^◌, ◌<◌, ◌≤ℤ◌, ◌<ℤ◌, ◌+ℤ◌, ◌-ℤ◌, pos, codes, IfOk, map};
ghost use Rattle.std.specs.Fmt.{signed_decimal};
ghost use Rattle.std.specs.Int.{int_rem_euclid};
ghost use Rattle.std.specs.Option.{option_map};
ghost use Rattle.std.specs.String.{string_bytes};
ghost use Rattle.a64_forms.specs.Names.{name};
ghost use Rattle.asm_spelling.specs.Labels.{offset_text};
ghost use Rattle.asm_spelling.specs.Slots.{aim_text, name_of, name_width, units_in, value_bits, value_in, without, without_operand, without_slot, written, written_mask, written_name, written_number, written_slot, written_value};

use crate::bits::{bits_at, mask_bits, mask_of, number_bits, placed};
use crate::label::offset_text;
use crate::named::Named;
use crate::written::Written;
use a64_forms::{Aim, NameRow, Names, Slot};
use a64_inst::Operand;
use gr_base::Bytes;
use std::alloc::{AllocError, Global};

/// How many bits tell the names of a list apart.
fn name_width(list: Names) -> u32
    ensures { result ≡ name_width list }
{
    match list {
        Names::X | Names::XOrSp | Names::W | Names::WOrSp => 5,
        Names::Condition => 4,
        Names::Shift | Names::ShiftOrTurn => 2,
        Names::Left => 0,
        Names::ExtendW | Names::ExtendX | Names::Extend => 3,
        Names::OffsetW | Names::OffsetX => 3,
    }
}

/// The first name of these bits.
pub(crate) fn name_of(rows: &[NameRow], bits: u32) -> Option<NameRow>
    ensures { option_map (λ n. name n.0.now n.1) result ≡ name_of (map (λ n. name n.0.now n.1) rows.now) bits }
{
    for row in rows {
        if row.1 == bits {
            return Some(*row);
        }
    }
    None
}

fn written_name(
    alloc: Global,
    word: u32,
    list: Names,
    place: u32,
) -> Result<Option<Written>, AllocError>
    ensures { IfOk result (λ made. made ≡ written_name word list place) }
{
    match name_of(list.list(), bits_at(place, name_width(list), word)) {
        Some((text, bits)) => {
            let text = Bytes::from_slice(alloc, text.as_bytes())?;
            let bits = placed(place, bits);
            Ok(Some(Written { text, bits }))
        }
        None => Ok(None),
    }
}

/// The number of units that the operand has in a word.
fn units_in(operand: Operand, word: u32) -> u32
    ensures { result ≡ units_in operand word }
{
    let low = bits_at(operand.low.place, operand.low.width, word);
    let high = bits_at(operand.high.place, operand.high.width, word);
    low | placed(operand.low.width, high)
}

/// The length of a range, up to one unit behind its most.
fn length_of(operand: Operand) -> i128
    requires some { 0 < operand.unit }
    requires range { operand.least ≤ℤ operand.most }
    ensures value { result ≡ operand.most -ℤ operand.least +ℤ pos operand.unit }
    ensures some { pos 0 <ℤ result }
    ensures few { result <ℤ pos (2 ^ 70) }
{
    i128::from(operand.most) - i128::from(operand.least) + i128::from(operand.unit)
}

/// How far so many units are from the least value.
fn from_least(operand: Operand, units: u32) -> i128
    ensures { result ≡ pos (units * operand.unit) -ℤ operand.least }
{
    let total = u64::from(units) * u64::from(operand.unit);
    i128::from(total) - i128::from(operand.least)
}

/// The remainder modulo a length.
fn remainder(value: i128, length: i128) -> i128
    requires some { pos 0 <ℤ length }
    requires few { length <ℤ pos (2 ^ 70) }
    ensures value { result ≡ int_rem_euclid value length }
    ensures least { pos 0 ≤ℤ result }
    ensures most { result <ℤ pos (2 ^ 70) }
{
    value.rem_euclid(length)
}

/// The value that is so far from another.
fn far_from(least: i64, far: i128) -> i128
    requires least { pos 0 ≤ℤ far }
    requires most { far <ℤ pos (2 ^ 70) }
    ensures { result ≡ least +ℤ far }
{
    i128::from(least) + far
}

/// The value of so many units in a range, from its least one on and modulo its length.
fn value_in(operand: Operand, units: u32) -> i128
    requires some { 0 < operand.unit }
    requires range { operand.least ≤ℤ operand.most }
    ensures { result ≡ value_in operand units }
{
    let far = from_least(operand, units);
    let length = length_of(operand);
    far_from(operand.least, remainder(far, length))
}

fn number_text(alloc: Global, value: i128) -> Result<Bytes, AllocError>
    ensures { IfOk result (λ text. text ≡ codes "#" ++ signed_decimal value) }
{
    let text = format!(in alloc; "#{value}")?;
    Bytes::from_slice(alloc, text.as_bytes())
}

fn written_number(alloc: Global, word: u32, operand: Operand) -> Result<Option<Written>, AllocError>
    ensures { IfOk result (λ made. made ≡ written_number word operand) }
{
    if operand.unit == 0 || operand.most < operand.least {
        return Ok(None);
    }
    let value = value_in(operand, units_in(operand, word));
    match number_bits(operand, value) {
        Some(bits) => {
            let text = number_text(alloc, value)?;
            Ok(Some(Written { text, bits }))
        }
        None => Ok(None),
    }
}

/// The bits of the first fields that spell a logical immediate.
fn value_bits(sf: u8, value: u64) -> Option<u32>
    ensures { result ≡ value_bits sf value }
{
    mask_bits(sf, value)
}

fn written_value(alloc: Global, sf: u8, value: u64) -> Result<Option<Written>, AllocError>
    ensures { IfOk result (λ made. made ≡ written_value sf value) }
{
    match value_bits(sf, value) {
        Some(bits) => {
            let text = format!(in alloc; "#0x{value:x}")?;
            let text = Bytes::from_slice(alloc, text.as_bytes())?;
            Ok(Some(Written { text, bits }))
        }
        None => Ok(None),
    }
}

fn written_mask(alloc: Global, word: u32, sf: u8) -> Result<Option<Written>, AllocError>
    ensures { IfOk result (λ made. made ≡ written_mask word sf) }
{
    match mask_of(sf, bits_at(10, 13, word)) {
        Some(value) => written_value(alloc, sf, value),
        None => Ok(None),
    }
}

/// A label and how far from it.
fn expression_text(alloc: Global, label: &Bytes, offset: i64) -> Result<Bytes, AllocError>
    ensures { IfOk result (λ text. text ≡ label.now ++ offset_text offset) }
{
    let mut text = Bytes::from_slice(alloc, label.as_slice())?;
    let far = offset_text(alloc, offset)?;
    text.extend_from_slice(far.as_bytes())?;
    Ok(text)
}

fn aim_text(alloc: Global, aim: Aim, named: &Named) -> Result<Option<Bytes>, AllocError>
    ensures { IfOk result (λ made. made ≡ aim_text aim named.now) }
{
    match named {
        Named::Nothing => Ok(None),
        Named::Label(label, offset) => match aim {
            Aim::Label if *offset != 0 => Ok(None),
            Aim::Label => {
                let text = Bytes::from_slice(alloc, label.as_slice())?;
                Ok(Some(text))
            }
            Aim::Expression => {
                let text = expression_text(alloc, label, *offset)?;
                Ok(Some(text))
            }
        },
    }
}

fn written_aim(alloc: Global, aim: Aim, named: &Named) -> Result<Option<Written>, AllocError>
    ensures { IfOk result (λ made. made ≡ option_map (λ text. written text 0) (aim_text aim named.now)) }
{
    match aim_text(alloc, aim, named)? {
        Some(text) => Ok(Some(Written { text, bits: 0 })),
        None => Ok(None),
    }
}

/// What a slot of a form is for a word.
pub(crate) fn written_slot(
    alloc: Global,
    word: u32,
    named: &Named,
    slot: Slot,
) -> Result<Option<Written>, AllocError>
    ensures { IfOk result (λ made. made ≡ written_slot word named.now slot) }
{
    match slot {
        Slot::Name(list, place) => written_name(alloc, word, list, place),
        Slot::Number(operand) => written_number(alloc, word, operand),
        Slot::Distance(kind) => written_number(alloc, word, kind.operand()),
        Slot::Mask(sf) => written_mask(alloc, word, sf),
        Slot::Aim(aim) => written_aim(alloc, aim, named),
    }
}

/// The word with 0 in so many bits that end at a place.
fn without(place: u32, width: u32, word: u32) -> u32
    ensures { result ≡ without place width word }
{
    word ^ placed(place, bits_at(place, width, word))
}

/// The word with 0 in the bits of the operand.
pub(crate) fn without_operand(operand: Operand, word: u32) -> u32
    ensures { result ≡ without_operand operand word }
{
    let word = without(operand.low.place, operand.low.width, word);
    without(operand.high.place, operand.high.width, word)
}

/// The word with 0 in the bits that the slot has.
pub(crate) fn without_slot(slot: Slot, word: u32) -> u32
    ensures { result ≡ without_slot slot word }
{
    match slot {
        Slot::Name(list, place) => without(place, name_width(list), word),
        Slot::Number(operand) => without_operand(operand, word),
        Slot::Distance(kind) => without_operand(kind.operand(), word),
        Slot::Mask(_) => without(10, 13, word),
        Slot::Aim(_) => word,
    }
}
