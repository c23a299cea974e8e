//! Bits and bytes turned round, and counts.

ghost use Rattle.std.specs.Prelude.{◌≡◌, ◌<◌};
ghost use Rattle.std.specs.Int.{w16, w32};
ghost use Rattle.a64_inst.specs.Numbers as number;
ghost use Rattle.a64_inst.specs.Numbers.{bits_of};

use crate::numbers::word;
use a64_inst::Width;

/// What the opcode of one source names: RBIT, REV16, REV32, REV, CLZ, CLS.
pub fn one_source(width: Width, opcode: u8, a: u64) -> u64
    ensures { result ≡ number.one_source_value opcode (bits_of width) a }
{
    match width {
        Width::W => of_32(opcode, word(a)),
        Width::X => of_64(opcode, a),
    }
}

fn of_32(opcode: u8, a: u32) -> u64
    ensures { result ≡ number.one_source_value opcode 32 a }
{
    match opcode {
        0 => u64::from(a.reverse_bits()),
        1 => u64::from(halves_swapped(a)),
        2 => u64::from(a.swap_bytes()),
        3 => 0,
        4 => u64::from(a.leading_zeros()),
        _ => u64::from(leading_signs_32(a)),
    }
}

fn of_64(opcode: u8, a: u64) -> u64
    ensures { result ≡ number.one_source_value opcode 64 a }
{
    match opcode {
        0 => a.reverse_bits(),
        1 => {
            let high = u64::from(halves_swapped((a / 4_294_967_296) as u32));
            u64::from(halves_swapped(word(a))) + high * 4_294_967_296
        }
        2 => {
            let high = u64::from(((a / 4_294_967_296) as u32).swap_bytes());
            u64::from(word(a).swap_bytes()) + high * 4_294_967_296
        }
        3 => a.swap_bytes(),
        4 => u64::from(a.leading_zeros()),
        _ => u64::from(leading_signs_64(a)),
    }
}

// The bytes of each half turned round.
fn halves_swapped(a: u32) -> u32
    ensures { result ≡ number.swapped_parts w16 2 a }
{
    let high = u32::from(((a / 65_536) as u16).swap_bytes());
    u32::from(((a % 65_536) as u16).swap_bytes()) + high * 65_536
}

// How many bits directly after the top bit equal it.
fn leading_signs_32(a: u32) -> u32
    ensures { result ≡ number.leading_signs 32 a }
{
    let signs = if a < 0x8000_0000 { a } else { !a };
    signs.leading_zeros() - 1
}

// How many bits directly after the top bit equal it.
fn leading_signs_64(a: u64) -> u32
    ensures { result ≡ number.leading_signs 64 a }
{
    let signs = if a < 0x8000_0000_0000_0000 { a } else { !a };
    signs.leading_zeros() - 1
}
