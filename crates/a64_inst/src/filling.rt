//! A word with the operand that an expression gives it.

ghost use Rattle.std.specs.Prelude.{◌≡◌, ◌+◌, ◌^◌, ◌<◌, Some};
ghost use Rattle.a64_inst.specs.Kinds.{operand, operand_kind};
ghost use Rattle.a64_inst.specs.Fitting.{fit, is_aligned, is_in_range, operand_value, page_of, units_of, with_bits, with_operand};

use crate::kind::{Bits, Kind, Operand};

/// Why a word can't take a target. Each carries the value that the operand was to take.
#[derive(Clone, Copy, Debug, PartialEq, Eq)]
pub enum FitFault {
    /// The value is outside the operand's range.
    Range(i128),
    /// The value isn't a multiple of the operand's unit.
    Unaligned(i128),
}

/// The word, which stands at a place, with the operand that the target gives it.
pub fn fit(kind: Kind, place: u64, target: u64, word: u32) -> Result<u32, FitFault>
    requires { operand_kind word ≡ Some kind }
    ensures { result ≡ fit kind place target word }
{
    let operand = kind.operand();
    let value = operand_value(kind, place, target);
    if !is_in_range(operand, value) {
        Err(FitFault::Range(value))
    } else if !is_aligned(operand, value) {
        Err(FitFault::Unaligned(value))
    } else {
        Ok(with_operand(operand, units_of(operand, value), word))
    }
}

// What the operand takes of the target.
fn operand_value(kind: Kind, place: u64, target: u64) -> i128
    ensures { result ≡ operand_value kind place target }
{
    match kind {
        Kind::Page => i128::from(page_of(target)) - i128::from(page_of(place)),
        Kind::Low12(_) => i128::from(target % 4096),
        _ => i128::from(target) - i128::from(place),
    }
}

fn page_of(address: u64) -> u64
    ensures { result ≡ page_of address }
{
    address / 4096 * 4096
}

fn is_in_range(operand: Operand, value: i128) -> bool
    ensures { result ≡ is_in_range operand value }
{
    i128::from(operand.least) <= value && value <= i128::from(operand.most)
}

fn is_aligned(operand: Operand, value: i128) -> bool
    requires { 0 < operand.unit }
    ensures { result ≡ is_aligned operand value }
{
    value.rem_euclid(i128::from(operand.unit)).unsigned_abs() == 0
}

// How many units the value has, modulo the bits of the operand.
fn units_of(operand: Operand, value: i128) -> u32
    requires unit { 0 < operand.unit }
    requires width { operand.low.width + operand.high.width < 32 }
    ensures units { result ≡ units_of operand value }
    ensures bound { result < 2 ^ (operand.low.width + operand.high.width) }
{
    let all = 1u32 << (operand.low.width + operand.high.width);
    let units = value.div_euclid(i128::from(operand.unit));
    units.rem_euclid(i128::from(all)).unsigned_abs() as u32
}

fn with_operand(operand: Operand, units: u32, word: u32) -> u32
    requires low { operand.low.place + operand.low.width < 32 }
    requires high { operand.high.place + operand.high.width < 32 }
    requires units { units < 2 ^ (operand.low.width + operand.high.width) }
    ensures { result ≡ with_operand operand units word }
{
    let low = with_bits(operand.low, units % (1 << operand.low.width), word);
    with_bits(operand.high, units >> operand.low.width, low)
}

fn with_bits(bits: Bits, number: u32, word: u32) -> u32
    requires inside { bits.place + bits.width < 32 }
    requires number { number < 2 ^ bits.width }
    ensures { result ≡ with_bits bits number word }
{
    let end = bits.place + bits.width;
    (word >> end << end) + (number << bits.place) + word % (1 << bits.place)
}
