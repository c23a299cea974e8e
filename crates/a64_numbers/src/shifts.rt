//! Shifts and extensions.

ghost use Rattle.std.specs.Prelude.{◌≡◌, ◌<◌, ◌≤◌, ◌*◌, ◌^◌, if◌then◌else◌};
ghost use Rattle.a64_inst.specs.declared.operations.Unary.TheVariants.{Shift, Extend};
ghost use Rattle.a64_inst.specs.Numbers.{bits_of, sign_extended, shifted, extended, unary_value, operand_value};

use crate::numbers::{low, sign_extended, word};
use a64_inst::Width;

/// An operand shifted by an amount below its width; by 0 it is a copy.
pub fn operand(width: Width, kind: u8, amount: u8, a: u64) -> u64
    requires { amount < bits_of width }
    ensures { result ≡ operand_value (Shift kind amount) (bits_of width) a }
{
    if amount == 0 {
        a
    } else {
        shifted(width, kind, a, amount)
    }
}

/// A shift to the left, to the right, to the right with copies of the top bit, or round to the right.
pub fn shifted(width: Width, kind: u8, a: u64, amount: u8) -> u64
    requires { amount < bits_of width }
    ensures { result ≡ shifted (bits_of width) kind a amount }
{
    match width {
        Width::W => u64::from(shifted_32(kind, word(a), amount)),
        Width::X => shifted_64(kind, a, amount),
    }
}

fn shifted_32(kind: u8, a: u32, amount: u8) -> u32
    requires { amount < 32 }
    ensures { result ≡ shifted 32 kind a amount }
{
    match kind {
        0 => a << amount,
        1 => a >> amount,
        2 => (a.cast_signed() >> amount).cast_unsigned(),
        _ => a.rotate_right(u32::from(amount)),
    }
}

fn shifted_64(kind: u8, a: u64, amount: u8) -> u64
    requires { amount < 64 }
    ensures { result ≡ shifted 64 kind a amount }
{
    match kind {
        0 => a << amount,
        1 => a >> amount,
        2 => (a.cast_signed() >> amount).cast_unsigned(),
        _ => a.rotate_right(u32::from(amount)),
    }
}

/// An operand extended as an option names it, and then shifted to the left; all of it without a shift is a copy.
pub fn extended_operand(width: Width, option: u8, amount: u8, a: u64) -> u64
    requires option { option < 8 }
    requires amount { amount < 8 }
    ensures { result ≡ operand_value (Extend option amount) (bits_of width) a }
{
    if option % 4 == 3 && amount == 0 {
        a
    } else {
        extended_and_shifted(width, option, amount, a)
    }
}

/// The low bits that an option names, extended and then shifted to the left.
pub fn extended_and_shifted(width: Width, option: u8, amount: u8, a: u64) -> u64
    requires option { option < 8 }
    requires amount { amount < 8 }
    ensures { result ≡ unary_value (Extend option amount) (bits_of width) a }
{
    low(width, extended(width, option, a) << amount)
}

// The low bits that an option names, extended.
fn extended(width: Width, option: u8, a: u64) -> u64
    requires { option < 8 }
    ensures { result ≡ extended (bits_of width) option a }
{
    match option {
        0 => a % 256,
        1 => a % 65_536,
        2 => a % 4_294_967_296,
        4 => sign_extended(width, 8, a),
        5 => sign_extended(width, 16, a),
        6 => sign_extended(width, 32, a),
        _ => a,
    }
}

/// What a load keeps of the number of its bytes, of which there are 2^`size`: the number, or with its sign to a width.
#[inline(always)]
pub fn loaded(size: u8, signed: bool, width: Width, n: u64) -> u64
    requires { size < 4 }
    ensures { result ≡ (if signed then sign_extended (8 * 2 ^ size) (bits_of width) n else n) }
{
    if !signed {
        return n;
    }
    match size {
        0 => sign_extended(width, 8, n),
        1 => sign_extended(width, 16, n),
        2 => sign_extended(width, 32, n),
        _ => sign_extended(width, 64, n),
    }
}
