//! Sums, and the flags that they set.

ghost use Rattle.std.specs.Prelude.{◌≡◌, false, ◌==◌, if◌then◌else◌};
ghost use Rattle.a64_inst.specs.declared.operations.Sum.TheVariants.{Add};
ghost use Rattle.a64_inst.specs.declared.operations.Unary.TheVariants.{Addend};
ghost use Rattle.a64_inst.specs.declared.operations.Binary.TheVariants.{PlainSum};
ghost use Rattle.a64_inst.specs.Numbers.{bits_of, bit_of, unary_value, binary_value, carried_flags, sum_value, sum_flags, carry_flags, logic_flags, named_flags};

use crate::numbers::{low, word};
use a64_inst::{Flags, Sum, Width};

// The least negative number of 32 bits, and of 64.
const LEAST_32: u32 = 0x8000_0000;

const LEAST_64: u64 = 0x8000_0000_0000_0000;

/// A sum or a difference.
pub fn sum(sum: Sum, width: Width, a: u64, b: u64) -> u64
    ensures { result ≡ sum_value sum (bits_of width) a b }
{
    match sum {
        Sum::Add => low(width, a.wrapping_add(b)),
        Sum::Subtract => low(width, a.wrapping_sub(b)),
    }
}

/// A sum of a number, another or its inverse, and a carry.
pub fn carried_sum(sum: Sum, width: Width, a: u64, b: u64, carry: bool) -> u64
    ensures { result ≡ binary_value (PlainSum Add) (bits_of width) (binary_value (PlainSum Add) (bits_of width) a (unary_value (Addend sum) (bits_of width) b)) (bit_of carry) }
{
    let b = match sum {
        Sum::Add => b,
        Sum::Subtract => !b,
    };
    low(width, a.wrapping_add(b).wrapping_add(u64::from(carry)))
}

/// The flags of a sum or a difference.
pub fn flags_of_sum(sum: Sum, width: Width, a: u64, b: u64) -> Flags
    ensures { result ≡ sum_flags sum (bits_of width) a b }
{
    let carry = match sum {
        Sum::Add => false,
        Sum::Subtract => true,
    };
    flags_with_carry(sum, width, a, b, carry)
}

/// The flags of a sum or a difference with a carry.
pub fn flags_with_carry(sum: Sum, width: Width, a: u64, b: u64, carry: bool) -> Flags
    ensures { result ≡ carry_flags sum (bits_of width) a b (bit_of carry) }
{
    let b = match sum {
        Sum::Add => b,
        Sum::Subtract => !b,
    };
    match width {
        Width::W => flags_32(word(a), word(b), carry),
        Width::X => flags_64(a, b, carry),
    }
}

// The flags of a sum of 32 bits.
fn flags_32(a: u32, b: u32, carry: bool) -> Flags
    ensures { result ≡ carried_flags 32 a b (bit_of carry) }
{
    let (sum, c) = a.carrying_add(b, carry);
    let n = sum >= LEAST_32;
    Flags {
        n,
        z: sum == 0,
        c,
        v: (a >= LEAST_32) == (b >= LEAST_32) && (a >= LEAST_32) != n,
    }
}

// The flags of a sum of 64 bits.
fn flags_64(a: u64, b: u64, carry: bool) -> Flags
    ensures { result ≡ carried_flags 64 a b (bit_of carry) }
{
    let (sum, c) = a.carrying_add(b, carry);
    let n = sum >= LEAST_64;
    Flags {
        n,
        z: sum == 0,
        c,
        v: (a >= LEAST_64) == (b >= LEAST_64) && (a >= LEAST_64) != n,
    }
}

/// The flags of a logical result.
pub fn flags_of_logic(width: Width, value: u64) -> Flags
    ensures { result ≡ logic_flags (bits_of width) value }
{
    let n = match width {
        Width::W => word(value) >= LEAST_32,
        Width::X => value >= LEAST_64,
    };
    Flags {
        n,
        z: low(width, value) == 0,
        c: false,
        v: false,
    }
}

/// The flags of a sum or a difference where a test holds, else those that four bits name.
pub fn flags_if(sum: Sum, width: Width, holds: bool, a: u64, b: u64, nzcv: u8) -> Flags
    ensures { result ≡ (if bit_of holds == 0 then named_flags nzcv else sum_flags sum (bits_of width) a b) }
{
    if holds {
        flags_of_sum(sum, width, a, b)
    } else {
        Flags::named(nzcv)
    }
}
