//! The flags of sums with a carry.

ghost use Rattle.std.specs.Prelude.{◌≡◌};
ghost use Rattle.a64_inst.specs.Numbers.{addend, bits_of, carried_flags, carry_flags};

use a64_inst::{Flags, Sum, Width};
use a64_numbers::numbers::{inverse, low};

/// The second operand of a sum.
fn addend(sum: Sum, width: Width, b: u64) -> u64
    ensures { result ≡ addend sum (bits_of width) b }
{
    match sum {
        Sum::Add => low(width, b),
        Sum::Subtract => inverse(width, b),
    }
}

// The flags of a sum of 32 bits.
fn carried_32(a: u64, b: u64, carry: u64) -> Flags
    ensures { result ≡ carried_flags 32 a b carry }
{
    let (a, b) = (a % 4_294_967_296, b % 4_294_967_296);
    let sum = u128::from(a) + u128::from(b) + u128::from(carry);
    let low = sum % 4_294_967_296;
    let n = low >= 2_147_483_648;
    Flags {
        n,
        z: low == 0,
        c: sum >= 4_294_967_296,
        v: (a >= 2_147_483_648) == (b >= 2_147_483_648) && (a >= 2_147_483_648) != n,
    }
}

// The flags of a sum of 64 bits.
fn carried_64(a: u64, b: u64, carry: u64) -> Flags
    ensures { result ≡ carried_flags 64 a b carry }
{
    let sum = u128::from(a) + u128::from(b) + u128::from(carry);
    let low = sum % 18_446_744_073_709_551_616;
    let n = low >= 9_223_372_036_854_775_808;
    Flags {
        n,
        z: low == 0,
        c: sum >= 18_446_744_073_709_551_616,
        v: (a >= 9_223_372_036_854_775_808) == (b >= 9_223_372_036_854_775_808)
            && (a >= 9_223_372_036_854_775_808) != n,
    }
}

/// The flags of a sum or a difference with a carry.
pub fn carry_flags(sum: Sum, width: Width, a: u64, b: u64, carry: u64) -> Flags
    ensures { result ≡ carry_flags sum (bits_of width) a b carry }
{
    let b = addend(sum, width, b);
    match width {
        Width::W => carried_32(a, b, carry),
        Width::X => carried_64(a, b, carry),
    }
}
