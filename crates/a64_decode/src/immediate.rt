//! Rows of data processing with an immediate.

ghost use Rattle.std.specs.Prelude.{◌≡◌};
ghost use Rattle.a64_inst.specs.Rows as rows;
ghost use Rattle.a64_inst.specs.Table.{read_row};

use crate::bits::bits;
use a64_inst::Inst;

#[inline(always)]
pub(crate) fn adr_adrp(word: u32) -> Option<Inst>
    ensures { result ≡ read_row rows.adr_adrp word }
{
    if bits(word, 24, 5) != 0b10000 {
        return None;
    }
    Some(Inst::AdrAdrp {
        op: bits(word, 31, 1) as u8,
        lo: bits(word, 29, 2) as u8,
        hi: bits(word, 5, 19),
        rd: bits(word, 0, 5) as u8,
    })
}

#[inline(always)]
pub(crate) fn add_sub_imm(word: u32) -> Option<Inst>
    ensures { result ≡ read_row rows.add_sub_imm word }
{
    if bits(word, 23, 6) != 0b100010 {
        return None;
    }
    Some(Inst::AddSubImm {
        sf: bits(word, 31, 1) as u8,
        op: bits(word, 30, 1) as u8,
        s: bits(word, 29, 1) as u8,
        sh: bits(word, 22, 1) as u8,
        imm12: bits(word, 10, 12) as u16,
        rn: bits(word, 5, 5) as u8,
        rd: bits(word, 0, 5) as u8,
    })
}

#[inline(always)]
pub(crate) fn logical_imm(word: u32) -> Option<Inst>
    ensures { result ≡ read_row rows.logical_imm word }
{
    if bits(word, 23, 6) != 0b100100 {
        return None;
    }
    Some(Inst::LogicalImm {
        sf: bits(word, 31, 1) as u8,
        opc: bits(word, 29, 2) as u8,
        n: bits(word, 22, 1) as u8,
        immr: bits(word, 16, 6) as u8,
        imms: bits(word, 10, 6) as u8,
        rn: bits(word, 5, 5) as u8,
        rd: bits(word, 0, 5) as u8,
    })
}

#[inline(always)]
pub(crate) fn move_wide(word: u32) -> Option<Inst>
    ensures { result ≡ read_row rows.move_wide word }
{
    if bits(word, 23, 6) != 0b100101 {
        return None;
    }
    Some(Inst::MoveWide {
        sf: bits(word, 31, 1) as u8,
        opc: bits(word, 29, 2) as u8,
        hw: bits(word, 21, 2) as u8,
        imm16: bits(word, 5, 16) as u16,
        rd: bits(word, 0, 5) as u8,
    })
}

#[inline(always)]
pub(crate) fn bitfield(word: u32) -> Option<Inst>
    ensures { result ≡ read_row rows.bitfield word }
{
    if bits(word, 23, 6) != 0b100110 {
        return None;
    }
    Some(Inst::Bitfield {
        sf: bits(word, 31, 1) as u8,
        opc: bits(word, 29, 2) as u8,
        n: bits(word, 22, 1) as u8,
        immr: bits(word, 16, 6) as u8,
        imms: bits(word, 10, 6) as u8,
        rn: bits(word, 5, 5) as u8,
        rd: bits(word, 0, 5) as u8,
    })
}

#[inline(always)]
pub(crate) fn extr(word: u32) -> Option<Inst>
    ensures { result ≡ read_row rows.extr word }
{
    if bits(word, 23, 8) != 0b00100111 || bits(word, 21, 1) != 0b0 {
        return None;
    }
    Some(Inst::Extr {
        sf: bits(word, 31, 1) as u8,
        n: bits(word, 22, 1) as u8,
        rm: bits(word, 16, 5) as u8,
        imms: bits(word, 10, 6) as u8,
        rn: bits(word, 5, 5) as u8,
        rd: bits(word, 0, 5) as u8,
    })
}
