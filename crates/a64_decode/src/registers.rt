//! Rows of data processing of registers.

ghost use Rattle.std.specs.Prelude.{◌≡◌};
ghost use Rattle.a64_inst.specs.Rows as rows;
ghost use Rattle.a64_inst.specs.Table.{read_row};

use crate::bits::bits;
use a64_inst::Inst;

#[inline(always)]
pub(crate) fn add_sub_shifted(word: u32) -> Option<Inst>
    ensures { result ≡ read_row rows.add_sub_shifted word }
{
    if bits(word, 24, 5) != 0b01011 || bits(word, 21, 1) != 0b0 {
        return None;
    }
    Some(Inst::AddSubShifted {
        sf: bits(word, 31, 1) as u8,
        op: bits(word, 30, 1) as u8,
        s: bits(word, 29, 1) as u8,
        shift: bits(word, 22, 2) as u8,
        rm: bits(word, 16, 5) as u8,
        imm6: bits(word, 10, 6) as u8,
        rn: bits(word, 5, 5) as u8,
        rd: bits(word, 0, 5) as u8,
    })
}

#[inline(always)]
pub(crate) fn add_sub_extended(word: u32) -> Option<Inst>
    ensures { result ≡ read_row rows.add_sub_extended word }
{
    if bits(word, 21, 8) != 0b01011001 {
        return None;
    }
    Some(Inst::AddSubExtended {
        sf: bits(word, 31, 1) as u8,
        op: bits(word, 30, 1) as u8,
        s: bits(word, 29, 1) as u8,
        rm: bits(word, 16, 5) as u8,
        option: bits(word, 13, 3) as u8,
        imm3: bits(word, 10, 3) as u8,
        rn: bits(word, 5, 5) as u8,
        rd: bits(word, 0, 5) as u8,
    })
}

#[inline(always)]
pub(crate) fn logical_shifted(word: u32) -> Option<Inst>
    ensures { result ≡ read_row rows.logical_shifted word }
{
    if bits(word, 24, 5) != 0b01010 {
        return None;
    }
    Some(Inst::LogicalShifted {
        sf: bits(word, 31, 1) as u8,
        opc: bits(word, 29, 2) as u8,
        shift: bits(word, 22, 2) as u8,
        n: bits(word, 21, 1) as u8,
        rm: bits(word, 16, 5) as u8,
        imm6: bits(word, 10, 6) as u8,
        rn: bits(word, 5, 5) as u8,
        rd: bits(word, 0, 5) as u8,
    })
}

#[inline(always)]
pub(crate) fn two_sources(word: u32) -> Option<Inst>
    ensures { result ≡ read_row rows.two_sources word }
{
    if bits(word, 21, 10) != 0b0011010110 {
        return None;
    }
    Some(Inst::TwoSources {
        sf: bits(word, 31, 1) as u8,
        rm: bits(word, 16, 5) as u8,
        opcode: bits(word, 10, 6) as u8,
        rn: bits(word, 5, 5) as u8,
        rd: bits(word, 0, 5) as u8,
    })
}

#[inline(always)]
pub(crate) fn one_source(word: u32) -> Option<Inst>
    ensures { result ≡ read_row rows.one_source word }
{
    if bits(word, 16, 15) != 0b101101011000000 {
        return None;
    }
    Some(Inst::OneSource {
        sf: bits(word, 31, 1) as u8,
        opcode: bits(word, 10, 6) as u8,
        rn: bits(word, 5, 5) as u8,
        rd: bits(word, 0, 5) as u8,
    })
}

#[inline(always)]
pub(crate) fn three_sources(word: u32) -> Option<Inst>
    ensures { result ≡ read_row rows.three_sources word }
{
    if bits(word, 24, 7) != 0b0011011 {
        return None;
    }
    Some(Inst::ThreeSources {
        sf: bits(word, 31, 1) as u8,
        op: bits(word, 21, 3) as u8,
        rm: bits(word, 16, 5) as u8,
        o0: bits(word, 15, 1) as u8,
        ra: bits(word, 10, 5) as u8,
        rn: bits(word, 5, 5) as u8,
        rd: bits(word, 0, 5) as u8,
    })
}

#[inline(always)]
pub(crate) fn with_carry(word: u32) -> Option<Inst>
    ensures { result ≡ read_row rows.with_carry word }
{
    if bits(word, 21, 8) != 0b11010000 || bits(word, 10, 6) != 0b000000 {
        return None;
    }
    Some(Inst::WithCarry {
        sf: bits(word, 31, 1) as u8,
        op: bits(word, 30, 1) as u8,
        s: bits(word, 29, 1) as u8,
        rm: bits(word, 16, 5) as u8,
        rn: bits(word, 5, 5) as u8,
        rd: bits(word, 0, 5) as u8,
    })
}

#[inline(always)]
pub(crate) fn cond_compare(word: u32) -> Option<Inst>
    ensures { result ≡ read_row rows.cond_compare word }
{
    if bits(word, 21, 9) != 0b111010010 || bits(word, 10, 1) != 0b0 || bits(word, 4, 1) != 0b0 {
        return None;
    }
    Some(Inst::CondCompare {
        sf: bits(word, 31, 1) as u8,
        op: bits(word, 30, 1) as u8,
        rm: bits(word, 16, 5) as u8,
        cond: bits(word, 12, 4) as u8,
        i: bits(word, 11, 1) as u8,
        rn: bits(word, 5, 5) as u8,
        nzcv: bits(word, 0, 4) as u8,
    })
}

#[inline(always)]
pub(crate) fn cond_select(word: u32) -> Option<Inst>
    ensures { result ≡ read_row rows.cond_select word }
{
    if bits(word, 21, 9) != 0b011010100 || bits(word, 11, 1) != 0b0 {
        return None;
    }
    Some(Inst::CondSelect {
        sf: bits(word, 31, 1) as u8,
        op: bits(word, 30, 1) as u8,
        rm: bits(word, 16, 5) as u8,
        cond: bits(word, 12, 4) as u8,
        o2: bits(word, 10, 1) as u8,
        rn: bits(word, 5, 5) as u8,
        rd: bits(word, 0, 5) as u8,
    })
}
