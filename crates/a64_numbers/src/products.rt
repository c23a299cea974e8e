//! Products and quotients.

ghost use Rattle.std.specs.Prelude.{◌≡◌, ◌^◌, ◌+◌, ◌-◌, true, false, IsTrue, not};
ghost use Rattle.a64_inst.specs.Reserved.{is_not_of_two};
ghost use Rattle.a64_inst.specs.declared.operations.Binary.TheVariants.{Product, LongProduct, HighProduct};
ghost use Rattle.a64_inst.specs.Numbers as number;
ghost use Rattle.a64_inst.specs.Numbers.{bits_of};

use crate::numbers::{bits, greatest, low, sign_extended};
use crate::shifts::shifted;
use a64_inst::Width;

/// The low bits of a product.
pub fn product(width: Width, a: u64, b: u64) -> u64
    ensures { result ≡ number.binary_value Product (bits_of width) a b }
{
    low(width, a.wrapping_mul(b))
}

/// The product of the low 32 bits of each, for true signed.
pub fn long_product(signed: bool, a: u64, b: u64) -> u64
    ensures { result ≡ number.binary_value (LongProduct signed) 64 a b }
{
    if signed {
        sign_extended(Width::X, 32, a).wrapping_mul(sign_extended(Width::X, 32, b))
    } else {
        low(Width::W, a) * low(Width::W, b)
    }
}

/// The upper 64 bits of a product, for true signed.
pub fn high_product(signed: bool, a: u64, b: u64) -> u64
    ensures { result ≡ number.binary_value (HighProduct signed) 64 a b }
{
    let product = if signed {
        doubled(a).wrapping_mul(doubled(b))
    } else {
        u128::from(a) * u128::from(b)
    };
    (product >> 64) as u64
}

// A signed number at twice the width.
fn doubled(a: u64) -> u128
    ensures { result ≡ number.sign_extended 64 128 a }
{
    if a < 0x8000_0000_0000_0000 {
        u128::from(a)
    } else {
        u128::from(a) + 0xffff_ffff_ffff_ffff_0000_0000_0000_0000
    }
}

/// The quotient, 0 where it is by 0.
pub fn unsigned_quotient(width: Width, a: u64, b: u64) -> u64
    ensures { result ≡ number.unsigned_quotient (bits_of width) a b }
{
    low(width, a).checked_div(low(width, b)).unwrap_or(0)
}

/// The quotient of signed numbers toward 0, 0 where it is by 0.
pub fn signed_quotient(width: Width, a: u64, b: u64) -> u64
    ensures { result ≡ number.signed_quotient (bits_of width) a b }
{
    let divisor = magnitude(width, b);
    if divisor == 0 {
        return 0;
    }
    let quotient = magnitude(width, a) / divisor;
    if is_negative(width, a) == is_negative(width, b) {
        quotient
    } else {
        low(width, quotient.wrapping_neg())
    }
}

/// What the opcode of two sources names: UDIV, SDIV, LSLV, LSRV, ASRV, RORV.
pub fn two_sources(width: Width, opcode: u8, a: u64, b: u64) -> u64
    requires { IsTrue (not (is_not_of_two opcode)) }
    ensures { result ≡ number.two_sources_value opcode (bits_of width) a b }
{
    match opcode {
        2 => unsigned_quotient(width, a, b),
        3 => signed_quotient(width, a, b),
        _ => {
            let amount = low(width, b) % u64::from(bits(width));
            shifted(width, opcode - 8, a, amount as u8)
        }
    }
}

/// The top bit of a number's width is 1.
pub fn is_negative(width: Width, a: u64) -> bool
    ensures { result ≡ number.is_negative (bits_of width) (number.low (bits_of width) a) }
{
    low(width, a) > greatest(width) / 2
}

// A number without its sign.
fn magnitude(width: Width, a: u64) -> u64
    ensures { result ≡ number.magnitude (bits_of width) a }
{
    let a = low(width, a);
    if is_negative(width, a) {
        greatest(width) - a + 1
    } else {
        a
    }
}
