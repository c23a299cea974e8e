//! Number functions of a width.

ghost use Rattle.std.specs.Prelude.{◌≡◌, ◌<◌, ◌≤◌, ◌-◌, ◌+◌, ◌*◌, ◌/◌, ◌%◌, ◌^◌};
ghost use Rattle.a64_inst.specs.declared.operations.Binary.TheVariants.{Logic};
ghost use Rattle.a64_inst.specs.declared.operations.Unary.TheVariants.{Insert};
ghost use Rattle.a64_inst.specs.Numbers.{bits_of, low, inverse, sign_extended, bit_of, unary_value, binary_value, chosen, zero_bit};
ghost use Rattle.a64_inst.specs.Meaning.{width_of, sum_of};

use a64_inst::{Sum, Width};

/// The width that a field names.
pub fn width(sf: u8) -> Width
    ensures { result ≡ width_of sf }
{
    if sf == 0 { Width::W } else { Width::X }
}

/// Whether a field names a sum or, where it is 1, a difference.
pub fn sum_of(op: u8) -> Sum
    ensures { result ≡ sum_of op }
{
    if op == 1 { Sum::Subtract } else { Sum::Add }
}

/// The width in bits.
pub fn bits(width: Width) -> u8
    ensures value { result ≡ bits_of width }
    ensures most { result ≤ 64 }
{
    match width {
        Width::W => 32,
        Width::X => 64,
    }
}

/// The low bits of a number.
pub fn low(width: Width, n: u64) -> u64
    ensures { result ≡ low (bits_of width) n }
{
    match width {
        Width::W => n % 4_294_967_296,
        Width::X => n,
    }
}

/// The low 32 bits.
pub fn word(n: u64) -> u32
    ensures { result ≡ low 32 n }
{
    (n % 4_294_967_296) as u32
}

/// The low bits of a number, as many as `count` says.
pub fn low_bits(count: u8, n: u64) -> u64
    requires { count ≤ 64 }
    ensures { result ≡ low count n }
{
    if count > 63 { n } else { n % (1 << count) }
}

/// The greatest number of a width.
pub fn greatest(width: Width) -> u64
    ensures { result ≡ 2 ^ bits_of width - 1 }
{
    match width {
        Width::W => 4_294_967_295,
        Width::X => u64::MAX,
    }
}

/// The low bits of a number, as many as `count` says, with the topmost of them copied upward to the width.
#[tactic(auto, using(std::proofs::lemmas::Nat::one_shl, crate::proofs::Powers::double, std::proofs::lemmas::Nat::pow_below))]
pub fn sign_extended(width: Width, count: u8, n: u64) -> u64
    requires some { 1 ≤ count }
    requires most { count ≤ 64 }
    ensures { result ≡ sign_extended count (bits_of width) n }
{
    let half = 1 << (count - 1);
    let bits = low_bits(count, n);
    if bits < half {
        bits
    } else {
        bits + greatest(width).saturating_sub(half - 1 + half)
    }
}

/// All bits of a number turned round.
pub fn inverse(width: Width, n: u64) -> u64
    ensures { result ≡ inverse (bits_of width) n }
{
    match width {
        Width::W => 4_294_967_295 - n % 4_294_967_296,
        Width::X => u64::MAX - n,
    }
}

/// What a logical opc names of two numbers, the second of which may be inverted.
pub fn logical(width: Width, opc: u8, inverted: bool, first: u64, second: u64) -> u64
    ensures { result ≡ binary_value (Logic opc inverted) (bits_of width) first second }
{
    let a = low(width, first);
    let b = if inverted {
        inverse(width, second)
    } else {
        low(width, second)
    };
    match opc {
        1 => a | b,
        2 => a ^ b,
        _ => a & b,
    }
}

/// The first number where a test holds, else the second, inverted and one more as the truths say.
pub fn chosen(invert: bool, more: bool, width: Width, holds: bool, first: u64, second: u64) -> u64
    ensures { result ≡ chosen invert more (bits_of width) (bit_of holds) first second }
{
    if holds {
        low(width, first)
    } else {
        let number = if invert {
            inverse(width, second)
        } else {
            second
        };
        low(width, number.wrapping_add(u64::from(more)))
    }
}

/// Whether a number is 0, or where that is negated isn't.
pub fn is_zero(negated: bool, width: Width, n: u64) -> bool
    ensures { bit_of result ≡ zero_bit negated (bits_of width) n }
{
    (low(width, n) == 0) != negated
}

/// Twelve bits, or for 1 twelve bits higher.
pub fn immediate(imm12: u16, sh: u8) -> u64
    requires { sh < 2 }
    ensures { result ≡ imm12 * 2 ^ (12 * sh) }
{
    let bits = u64::from(imm12);
    if sh == 0 { bits } else { bits * 4096 }
}

/// Sixteen bits in the place that `hw` counts.
pub fn placed(imm16: u16, hw: u8) -> u64
    requires { hw < 4 }
    ensures { result ≡ imm16 * 2 ^ (16 * hw) }
{
    let bits = u64::from(imm16);
    match hw {
        0 => bits,
        1 => bits * 65_536,
        2 => bits * 4_294_967_296,
        _ => bits * 281_474_976_710_656,
    }
}

/// A number with sixteen bits put into the place that `hw` counts.
pub fn inserted(width: Width, n: u64, imm16: u16, hw: u8) -> u64
    requires { hw < 4 }
    ensures { result ≡ unary_value (Insert imm16 (16 * hw)) (bits_of width) n }
{
    let bits = u64::from(imm16);
    let whole = match hw {
        0 => n / 65_536 * 65_536 + bits,
        1 => n / 4_294_967_296 * 4_294_967_296 + bits * 65_536 + n % 65_536,
        2 => {
            n / 281_474_976_710_656 * 281_474_976_710_656 + bits * 4_294_967_296 + n % 4_294_967_296
        }
        _ => bits * 281_474_976_710_656 + n % 281_474_976_710_656,
    };
    low(width, whole)
}
