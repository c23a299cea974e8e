//! Which fields the rows of the instruction table keep out.

ghost use Rattle.std.specs.Prelude.{◌≡◌, ◌≤◌};
ghost use Rattle.a64_inst.specs.Reserved as reserved;
ghost use Rattle.a64_inst.specs.Numbers.{element_size};

// A 32-bit instruction has this number past the bits of its operands.
pub(crate) fn is_past_32(sf: u8, amount: u8) -> bool
    ensures { result ≡ reserved.is_past_32 sf amount }
{
    sf == 0 && amount > 31
}

pub(crate) fn is_no_move(sf: u8, opc: u8, hw: u8) -> bool
    ensures { result ≡ reserved.is_no_move sf opc hw }
{
    opc == 1 || (sf == 0 && hw > 1)
}

pub(crate) fn is_no_shift(sf: u8, shift: u8, imm6: u8) -> bool
    ensures { result ≡ reserved.is_no_shift sf shift imm6 }
{
    shift == 3 || is_past_32(sf, imm6)
}

pub(crate) fn is_no_bitfield(sf: u8, opc: u8, n: u8, immr: u8, imms: u8) -> bool
    ensures { result ≡ reserved.is_no_bitfield sf opc n immr imms }
{
    opc == 3 || n != sf || is_past_32(sf, immr) || is_past_32(sf, imms)
}

pub(crate) fn is_no_extract(sf: u8, n: u8, imms: u8) -> bool
    ensures { result ≡ reserved.is_no_extract sf n imms }
{
    n != sf || is_past_32(sf, imms)
}

pub(crate) fn is_not_of_two(opcode: u8) -> bool
    ensures { result ≡ reserved.is_not_of_two opcode }
{
    opcode < 2 || opcode > 11 || (opcode > 3 && opcode < 8)
}

pub(crate) fn is_not_of_one(sf: u8, opcode: u8) -> bool
    ensures { result ≡ reserved.is_not_of_one sf opcode }
{
    opcode > 5 || (opcode == 3 && sf == 0)
}

// The fields of a logical immediate name no mask.
pub(crate) fn is_no_mask(sf: u8, n: u8, imms: u8) -> bool
    ensures { result ≡ reserved.is_no_mask sf n imms }
{
    let size = element_size(n, imms);
    size == 0 || imms % size == size - 1 || (sf == 0 && n == 1)
}

/// The size of the repeated element of a logical immediate, or 0 where there is none of two bits or more.
pub fn element_size(n: u8, imms: u8) -> u8
    ensures value { result ≡ element_size n imms }
    ensures most { result ≤ 64 }
{
    match imms {
        _ if n == 1 => 64,
        0..32 => 32,
        32..48 => 16,
        48..56 => 8,
        56..60 => 4,
        60..62 => 2,
        _ => 0,
    }
}

// A row of three sources has this opcode.
pub(crate) fn is_product(sf: u8, op: u8, o0: u8, ra: u8) -> bool
    ensures { result ≡ reserved.is_product sf op o0 ra }
{
    match op {
        0 => true,
        1 | 5 => sf == 1,
        2 | 6 => sf == 1 && o0 == 0 && ra == 31,
        _ => false,
    }
}

pub(crate) fn is_no_access(size: u8, opc: u8) -> bool
    ensures { result ≡ reserved.is_no_access size opc }
{
    (size == 2 && opc == 3) || (size == 3 && opc > 1)
}

fn changes_base(idx: u8, rn: u8, rt: u8) -> bool
    ensures { result ≡ reserved.changes_base idx rn rt }
{
    idx % 2 == 1 && rn == rt && rn != 31
}

pub(crate) fn is_no_indexed(size: u8, opc: u8, idx: u8, rn: u8, rt: u8) -> bool
    ensures { result ≡ reserved.is_no_indexed size opc idx rn rt }
{
    is_no_access(size, opc) || idx == 2 || changes_base(idx, rn, rt)
}

pub(crate) fn is_no_offset(size: u8, opc: u8, option: u8) -> bool
    ensures { result ≡ reserved.is_no_offset size opc option }
{
    is_no_access(size, opc) || option / 2 % 2 != 1
}

fn is_no_pair_form(opc: u8, idx: u8, l: u8) -> bool
    ensures { result ≡ reserved.is_no_pair_form opc idx l }
{
    idx == 0 || opc == 3 || (opc == 1 && l == 0)
}

pub(crate) fn is_no_pair(opc: u8, idx: u8, l: u8, rt2: u8, rn: u8, rt: u8) -> bool
    ensures { result ≡ reserved.is_no_pair opc idx l rt2 rn rt }
{
    is_no_pair_form(opc, idx, l)
        || (l == 1 && rt == rt2)
        || changes_base(idx, rn, rt)
        || changes_base(idx, rn, rt2)
}
