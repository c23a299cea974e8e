//! The bits that a number or a register has in a word.

ghost use Rattle.std.specs.Prelude.{◌≡◌, ◌/◌, ◌%◌, ◌^◌, ◌<◌, ◌&&◌, ℕ, IfSome, IfNone, nat_lt, not};
ghost use Rattle.a64_inst.specs.Fitting.{is_aligned, is_in_range};
ghost use Rattle.a64_inst.specs.Numbers.{element_size};
ghost use Rattle.a64_inst.specs.Parts.{bits_at};
ghost use Rattle.a64_inst.specs.Reserved.{is_no_mask};
ghost use Rattle.a64_forms.specs.Bits.{IsMask, are_apart, mask_of, number_bits, placed, register_at, unit_bits, units};

use a64_forms::Apart;
use a64_inst::{Inst, Operand, element_size};
use a64_numbers::fields::mask;

/// A number whose bits end at this place of a word.
pub(crate) fn placed(place: u32, number: u32) -> u32
    ensures { result ≡ placed place number }
{
    if place < 32 { number << place } else { 0 }
}

fn low_bits(number: u32, width: u32) -> u32
    ensures { result ≡ number % 2 ^ width }
{
    if width < 32 {
        number % (1 << width)
    } else {
        number
    }
}

fn high_bits(number: u32, width: u32) -> u32
    ensures { result ≡ number / 2 ^ width }
{
    if width < 32 { number >> width } else { 0 }
}

/// So many bits of a word, those that end at this place.
pub(crate) fn bits_at(place: u32, width: u32, word: u32) -> u32
    ensures { result ≡ bits_at place width word }
{
    low_bits(high_bits(word, place), width)
}

fn unit_bits(operand: Operand, number: u32) -> u32
    ensures { result ≡ unit_bits operand number }
{
    let low = low_bits(number, operand.low.width);
    let high = low_bits(high_bits(number, operand.low.width), operand.high.width);
    placed(operand.low.place, low) | placed(operand.high.place, high)
}

/// How many units the value has, modulo those of a word.
fn units(operand: Operand, value: i128) -> u32
    requires { 0 < operand.unit }
    ensures { result ≡ units operand value }
{
    let units = value.div_euclid(i128::from(operand.unit));
    units.rem_euclid(1 << 32).unsigned_abs() as u32
}

fn is_in_range(operand: Operand, value: i128) -> bool
    ensures { result ≡ is_in_range operand value }
{
    i128::from(operand.least) <= value && value <= i128::from(operand.most)
}

fn is_aligned(operand: Operand, value: i128) -> bool
    requires { 0 < operand.unit }
    ensures { result ≡ is_aligned operand value }
{
    value.rem_euclid(i128::from(operand.unit)).unsigned_abs() == 0
}

/// The operand's bits of a value, where the operand takes it.
pub(crate) fn number_bits(operand: Operand, value: i128) -> Option<u32>
    ensures { result ≡ number_bits operand value }
{
    if operand.unit == 0 {
        return None;
    }
    if is_in_range(operand, value) && is_aligned(operand, value) {
        Some(unit_bits(operand, units(operand, value)))
    } else {
        None
    }
}

/// The mask of the fields of a logical immediate, where they spell one.
pub(crate) fn mask_of(sf: u8, fields: u32) -> Option<u64>
    requires { fields < 8192 }
    ensures { result ≡ mask_of sf fields }
{
    let n = (fields / 4096) as u8;
    let immr = (fields / 64 % 64) as u8;
    let imms = (fields % 64) as u8;
    if spells_mask(sf, n, immr, imms) {
        Some(mask(sf, n, immr, imms))
    } else {
        None
    }
}

fn spells_mask(sf: u8, n: u8, immr: u8, imms: u8) -> bool
    ensures { result ≡ (not (is_no_mask sf n imms) && nat_lt immr (element_size n imms)) }
{
    let inst = Inst::LogicalImm {
        sf,
        opc: 0,
        n,
        immr,
        imms,
        rn: 0,
        rd: 0,
    };
    !inst.is_reserved() && immr < element_size(n, imms)
}

/// The bits of the logical immediate that is this value.
pub(crate) fn mask_bits(sf: u8, value: u64) -> Option<u32>
    ensures some { IfSome result (IsMask sf value) }
    ensures none { IfNone result ((bits : ℕ) → IsMask sf value bits → ⊥) }
{
    for fields in 0..8192 {
        if mask_of(sf, fields) == Some(value) {
            return Some(placed(10, fields));
        }
    }
    None
}

fn register_at(place: u32, word: u32) -> u32
    ensures { result ≡ register_at place word }
{
    if place < 32 { word >> place & 31 } else { 0 }
}

/// Whether two registers of the word differ where they have to.
pub(crate) fn are_apart(word: u32, apart: Apart) -> bool
    ensures { result ≡ are_apart word apart }
{
    match apart {
        Apart::Always(a, b) => register_at(a, word) != register_at(b, word),
        Apart::UnlessSp(a, b) => {
            let first = register_at(a, word);
            first != register_at(b, word) || first == 31
        }
    }
}
