//! Fields of bits.

ghost use Rattle.std.specs.Prelude.{◌≡◌, ◌<◌, ◌≤◌, ◌-◌, ◌*◌, ◌/◌, ◌^◌, IsTrue, not};
ghost use Rattle.a64_inst.specs.declared.operations.Unary.TheVariants.{Bitfield};
ghost use Rattle.a64_inst.specs.declared.operations.Binary.TheVariants.{BitfieldInto, Extract};
ghost use Rattle.a64_inst.specs.Numbers as number;
ghost use Rattle.a64_inst.specs.Reserved.{is_no_mask};
ghost use Rattle.a64_inst.specs.Numbers.{bits_of};
ghost use Rattle.a64_inst.specs.Meaning.{width_of};

use crate::numbers::{bits, low, low_bits, sign_extended, width};
use a64_inst::{Width, element_size};

// The bits from immr to imms moved down, or those up to imms moved up.
fn moved_bits(width: Width, immr: u8, imms: u8, a: u64) -> u64
    requires immr { immr < bits_of width }
    requires imms { imms < bits_of width }
    ensures { result ≡ number.moved_bits (bits_of width) immr imms a }
{
    let a = low(width, a);
    if immr <= imms {
        low_bits(imms - immr + 1, a >> immr)
    } else {
        low_bits(imms + 1, a) << (bits(width) - immr)
    }
}

// How many bits there are up to the topmost that is moved.
fn moved_top(width: Width, immr: u8, imms: u8) -> u8
    requires immr { immr < bits_of width }
    requires imms { imms < bits_of width }
    ensures value { result ≡ number.moved_top (bits_of width) immr imms }
    ensures some { 1 ≤ result }
    ensures most { result ≤ bits_of width }
{
    if immr <= imms {
        imms - immr + 1
    } else {
        imms + 1 + (bits(width) - immr)
    }
}

// From which place on bits are moved.
fn moved_place(width: Width, immr: u8, imms: u8) -> u8
    requires { immr < bits_of width }
    ensures value { result ≡ number.moved_place (bits_of width) immr imms }
    ensures most { result ≤ 64 }
{
    if immr <= imms { 0 } else { bits(width) - immr }
}

/// A bit field alone, and for true with its topmost bit copied upward.
pub fn field(signed: bool, width: Width, immr: u8, imms: u8, a: u64) -> u64
    requires immr { immr < bits_of width }
    requires imms { imms < bits_of width }
    ensures { result ≡ number.unary_value (Bitfield signed immr imms) (bits_of width) a }
{
    let bits = moved_bits(width, immr, imms, a);
    if signed {
        sign_extended(width, moved_top(width, immr, imms), bits)
    } else {
        bits
    }
}

/// A number with a bit field of another in its place.
pub fn with_field(width: Width, immr: u8, imms: u8, a: u64, b: u64) -> u64
    requires immr { immr < bits_of width }
    requires imms { imms < bits_of width }
    ensures { result ≡ number.binary_value (BitfieldInto immr imms) (bits_of width) a b }
{
    let whole = low(width, a);
    let above = whole - low_bits(moved_top(width, immr, imms), whole);
    above + moved_bits(width, immr, imms, b) + low_bits(moved_place(width, immr, imms), a)
}

/// The bits of two numbers from a place of the second on.
pub fn extract(width: Width, place: u8, a: u64, b: u64) -> u64
    requires { place < bits_of width }
    ensures { result ≡ number.binary_value (Extract place) (bits_of width) a b }
{
    if place == 0 {
        return low(width, b);
    }
    match width {
        Width::W => low(
            width,
            (low(width, b) >> place) + (low(width, a) << (32 - place)),
        ),
        Width::X => (b >> place).wrapping_add(a << (64 - place)),
    }
}

/// A logical immediate, at the width that `sf` names.
pub fn mask(sf: u8, n: u8, immr: u8, imms: u8) -> u64
    requires { IsTrue (not (is_no_mask sf n imms)) }
    ensures { result ≡ number.bit_mask (bits_of (width_of sf)) n immr imms }
{
    let size = element_size(n, imms);
    element(size, imms % size + 1, immr % size) * lowest_bits(sf, n, imms)
}

// The lowest bit of each element.
fn lowest_bits(sf: u8, n: u8, imms: u8) -> u64
    requires { IsTrue (not (is_no_mask sf n imms)) }
    ensures { result ≡ (2 ^ bits_of (width_of sf) - 1) / (2 ^ number.element_size n imms - 1) }
{
    let bits = match element_size(n, imms) {
        64 => 1,
        32 => 0x0000_0001_0000_0001,
        16 => 0x0001_0001_0001_0001,
        8 => 0x0101_0101_0101_0101,
        4 => 0x1111_1111_1111_1111,
        _ => 0x5555_5555_5555_5555,
    };
    low(width(sf), bits)
}

// So many ones.
#[tactic(auto, using(std::proofs::lemmas::Nat::one_shl, std::proofs::lemmas::Nat::pow_pos))]
fn ones(count: u8) -> u64
    requires { count ≤ 64 }
    ensures { result ≡ 2 ^ count - 1 }
{
    if count > 63 {
        u64::MAX
    } else {
        (1 << count) - 1
    }
}

// So many ones, turned round to the right in a number of this size.
fn element(size: u8, count: u8, by: u8) -> u64
    requires size { size ≤ 64 }
    requires count { count < size }
    requires by { by < size }
    ensures value { result ≡ number.rotated size (2 ^ count - 1) by }
    ensures most { result < 2 ^ size }
{
    let ones = ones(count);
    if by == 0 {
        ones
    } else {
        (ones >> by) + (low_bits(by, ones) << (size - by))
    }
}
