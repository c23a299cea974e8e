//! Pieces of a line: a slot, with the text before and behind it.

ghost use Rattle.std.specs.Prelude.{◌≡◌, ◌++◌, ◌∷◌, ◌↔◌, ℕ, ℤ, pos, ◌-ℤ◌, ◌≤ℤ◌, List, Some, None, Option, IsTrue, IfSome, IfNone, MatchOption, map, ◌≢◌};
ghost use Rattle.std.specs.Option.{option_map};
ghost use Rattle.a64_inst.specs.Kinds.{operand};
ghost use Rattle.a64_forms.specs.Bits.{placed};
ghost use Rattle.a64_forms.specs.Names.{name, named_bits, names_of};
ghost use Rattle.a64_forms.specs.Number.{IsNumber, IsNumberWord};
ghost use Rattle.a64_forms.specs.declared.form.Slot.TheVariants as slots;
ghost use Rattle.a64_forms.specs.Spelling.{Spelled, IsImmediate, IsMaskAs, IsMaskIn, IsMaskOf, IsNumberAs, IsNumberIn, IsNumberOf, IsPiece, IsSlot, begins_name, held, piece, spelled};

use crate::bits::{mask_bits, number_bits, placed};
use crate::form::{Aim, NameRow, Names, Numbers, PieceRow, Slot};
use crate::number::{is_number_word, read_number};
use crate::share::{Share, Target};
use a64_inst::Operand;

// The bits of the name that a text is.
pub(crate) fn named_bits(rows: &[NameRow], text: &[u8]) -> Option<u32>
    ensures { result ≡ named_bits (map (λ n. name n.0.now n.1) rows.now) text.now }
{
    for row in rows {
        if row.0.as_bytes() == text {
            return Some(row.1);
        }
    }
    None
}

fn name_bits(list: Names, place: u32, text: &[u8]) -> Option<u32>
    ensures { result ≡ option_map (placed place) (named_bits (names_of list) text.now) }
{
    match named_bits(list.list(), text) {
        Some(bits) => Some(placed(place, bits)),
        None => None,
    }
}

fn positive(number: u64) -> i128
    ensures { result ≡ pos number }
{
    i128::from(number)
}

fn negative(number: u64) -> i128
    ensures { result ≡ pos 0 -ℤ pos number }
{
    -i128::from(number)
}

fn read_positive(digits: &[u8]) -> Option<i128>
    ensures { (value : ℤ) → (result ≡ Some value) ↔ ((n : ℕ) × IsNumber digits.now n × (value ≡ pos n)) }
{
    match read_number(digits) {
        Some(number) => Some(positive(number)),
        None => None,
    }
}

fn read_negative(digits: &[u8]) -> Option<i128>
    ensures { (value : ℤ) → (result ≡ Some value) ↔ ((n : ℕ) × IsNumber digits.now n × (value ≡ pos 0 -ℤ pos n)) }
{
    match read_number(digits) {
        Some(number) => Some(negative(number)),
        None => None,
    }
}

// The number behind `#`, perhaps with a minus sign.
fn read_immediate(text: &[u8]) -> Option<i128>
    ensures { (value : ℤ) → (result ≡ Some value) ↔ IsImmediate text.now value }
{
    match behind(text, b"#-") {
        Some(digits) => read_negative(digits),
        None => match behind(text, b"#") {
            Some(digits) => read_positive(digits),
            None => None,
        },
    }
}

fn number_of(operand: Operand, text: &[u8]) -> Option<u32>
    ensures some { IfSome result (λ bits. IsNumberOf operand text.now (spelled bits None)) }
    ensures none { IfNone result ((s : Spelled) → IsNumberOf operand text.now s → ⊥) }
{
    let value = read_immediate(text)?;
    number_bits(operand, value)
}

fn mask_of(sf: u8, text: &[u8]) -> Option<u32>
    ensures some { IfSome result (λ bits. IsMaskOf sf text.now (spelled bits None)) }
    ensures none { IfNone result ((s : Spelled) → IsMaskOf sf text.now s → ⊥) }
{
    let digits = behind(text, b"#")?;
    let value = read_number(digits)?;
    mask_bits(sf, value)
}

fn is_negative_in(operand: Operand, digits: &[u8]) -> bool
    ensures { IsTrue result ↔ ((operand.least ≤ℤ pos 0) × IsNumberWord digits.now) }
{
    operand.least <= 0 && is_number_word(digits)
}

fn is_number_in(operand: Operand, text: &[u8]) -> bool
    ensures { IsTrue result ↔ IsNumberIn operand text.now (spelled 0 None) }
{
    match behind(text, b"#-") {
        Some(digits) => is_negative_in(operand, digits),
        None => match behind(text, b"#") {
            Some(digits) => is_number_word(digits),
            None => false,
        },
    }
}

fn is_mask_in(text: &[u8]) -> bool
    ensures { IsTrue result ↔ IsMaskIn text.now (spelled 0 None) }
{
    match behind(text, b"#") {
        Some(digits) => is_number_word(digits),
        None => false,
    }
}

fn number_as(numbers: Numbers, operand: Operand, text: &[u8]) -> Option<u32>
    ensures some { IfSome result (λ bits. IsNumberAs numbers operand text.now (spelled bits None)) }
    ensures none { IfNone result ((s : Spelled) → IsNumberAs numbers operand text.now s → ⊥) }
{
    match numbers {
        Numbers::Fitting => number_of(operand, text),
        Numbers::Any if is_number_in(operand, text) => Some(0),
        Numbers::Any => None,
    }
}

fn mask_as(numbers: Numbers, sf: u8, text: &[u8]) -> Option<u32>
    ensures some { IfSome result (λ bits. IsMaskAs numbers sf text.now (spelled bits None)) }
    ensures none { IfNone result ((s : Spelled) → IsMaskAs numbers sf text.now s → ⊥) }
{
    match numbers {
        Numbers::Fitting => mask_of(sf, text),
        Numbers::Any if is_mask_in(text) => Some(0),
        Numbers::Any => None,
    }
}

fn begins_name(text: &[u8]) -> bool
    ensures { result ≡ begins_name text.now }
{
    match text {
        [] => false,
        [first, ..] => first.is_ascii_alphabetic() || matches!(first, b'_' | b'.' | b'$' | b'"'),
    }
}

fn target_of(numbers: Numbers, aim: Aim, text: &[u8]) -> Option<Share<'_>>
    ensures some { IfSome result (λ s. IsSlot numbers (slots.Aim aim) text.now (held s)) }
    ensures none { IfNone result ((s : Spelled) → IsSlot numbers (slots.Aim aim) text.now s → ⊥) }
{
    if begins_name(text) {
        let target = Some(Target { aim, text });
        Some(Share { bits: 0, target })
    } else {
        None
    }
}

// What the text gives as what the slot stands for.
fn read_slot(numbers: Numbers, slot: Slot, text: &[u8]) -> Option<Share<'_>>
    ensures some { IfSome result (λ s. IsSlot numbers slot text.now (held s)) }
    ensures none { IfNone result ((s : Spelled) → IsSlot numbers slot text.now s → ⊥) }
{
    let bits = match slot {
        Slot::Name(list, place) => name_bits(list, place, text)?,
        Slot::Number(operand) => number_as(numbers, operand, text)?,
        Slot::Distance(kind) => number_as(numbers, kind.operand(), text)?,
        Slot::Mask(sf) => mask_as(numbers, sf, text)?,
        Slot::Aim(aim) => return target_of(numbers, aim, text),
    };
    Some(Share { bits, target: None })
}

// What stands behind a text.
fn behind<'a>(text: &'a [u8], first: &[u8]) -> Option<&'a [u8]>
    ensures { MatchOption result ((rest : List ℕ) → text.now ≢ first.now ++ rest) (λ rest. text.now ≡ first.now ++ rest.now) }
{
    text.strip_prefix(first)
}

// What stands before a text.
fn before<'a>(text: &'a [u8], last: &[u8]) -> Option<&'a [u8]>
    ensures { MatchOption result ((rest : List ℕ) → text.now ≢ rest ++ last.now) (λ rest. text.now ≡ rest.now ++ last.now) }
{
    text.strip_suffix(last)
}

// What stands between two texts.
fn between<'a>(text: &'a [u8], first: &[u8], last: &[u8]) -> Option<&'a [u8]>
    ensures { MatchOption result ((x : List ℕ) → text.now ≢ first.now ++ x ++ last.now) (λ x. text.now ≡ first.now ++ x.now ++ last.now) }
{
    let front = before(text, last)?;
    behind(front, first)
}

// What the text gives as this piece.
pub(crate) fn read_piece<'a>(numbers: Numbers, row: PieceRow, text: &'a [u8]) -> Option<Share<'a>>
    ensures some { IfSome result (λ s. IsPiece numbers (piece row.entry.0.now row.entry.1 row.entry.2.now) text.now (held s)) }
    ensures none { IfNone result ((s : Spelled) → IsPiece numbers (piece row.entry.0.now row.entry.1 row.entry.2.now) text.now s → ⊥) }
{
    let (first, slot, last) = row;
    let inside = between(text, first.as_bytes(), last.as_bytes())?;
    read_slot(numbers, slot, inside)
}
