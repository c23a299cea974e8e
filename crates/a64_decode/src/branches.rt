//! Rows of branches, of the system and of traps.

ghost use Rattle.std.specs.Prelude.{◌≡◌};
ghost use Rattle.a64_inst.specs.Rows as rows;
ghost use Rattle.a64_inst.specs.Table.{read_row};

use crate::bits::bits;
use a64_inst::Inst;

#[inline(always)]
pub(crate) fn b_bl(word: u32) -> Option<Inst>
    ensures { result ≡ read_row rows.b_bl word }
{
    if bits(word, 26, 5) != 0b00101 {
        return None;
    }
    Some(Inst::BBl {
        op: bits(word, 31, 1) as u8,
        imm26: bits(word, 0, 26),
    })
}

#[inline(always)]
pub(crate) fn b_cond(word: u32) -> Option<Inst>
    ensures { result ≡ read_row rows.b_cond word }
{
    if bits(word, 24, 8) != 0b01010100 || bits(word, 4, 1) != 0b0 {
        return None;
    }
    Some(Inst::BCond {
        imm19: bits(word, 5, 19),
        cond: bits(word, 0, 4) as u8,
    })
}

#[inline(always)]
pub(crate) fn cbz_cbnz(word: u32) -> Option<Inst>
    ensures { result ≡ read_row rows.cbz_cbnz word }
{
    if bits(word, 25, 6) != 0b011010 {
        return None;
    }
    Some(Inst::CbzCbnz {
        sf: bits(word, 31, 1) as u8,
        op: bits(word, 24, 1) as u8,
        imm19: bits(word, 5, 19),
        rt: bits(word, 0, 5) as u8,
    })
}

#[inline(always)]
pub(crate) fn tbz_tbnz(word: u32) -> Option<Inst>
    ensures { result ≡ read_row rows.tbz_tbnz word }
{
    if bits(word, 25, 6) != 0b011011 {
        return None;
    }
    Some(Inst::TbzTbnz {
        b5: bits(word, 31, 1) as u8,
        op: bits(word, 24, 1) as u8,
        b40: bits(word, 19, 5) as u8,
        imm14: bits(word, 5, 14) as u16,
        rt: bits(word, 0, 5) as u8,
    })
}

#[inline(always)]
pub(crate) fn br(word: u32) -> Option<Inst>
    ensures { result ≡ read_row rows.br word }
{
    if bits(word, 10, 22) != 0b1101011000011111000000 || bits(word, 0, 5) != 0b00000 {
        return None;
    }
    Some(Inst::BrBlrRet {
        which: 0,
        rn: bits(word, 5, 5) as u8,
    })
}

#[inline(always)]
pub(crate) fn blr(word: u32) -> Option<Inst>
    ensures { result ≡ read_row rows.blr word }
{
    if bits(word, 10, 22) != 0b1101011000111111000000 || bits(word, 0, 5) != 0b00000 {
        return None;
    }
    Some(Inst::BrBlrRet {
        which: 1,
        rn: bits(word, 5, 5) as u8,
    })
}

#[inline(always)]
pub(crate) fn ret(word: u32) -> Option<Inst>
    ensures { result ≡ read_row rows.ret word }
{
    if bits(word, 10, 22) != 0b1101011001011111000000 || bits(word, 0, 5) != 0b00000 {
        return None;
    }
    Some(Inst::BrBlrRet {
        which: 2,
        rn: bits(word, 5, 5) as u8,
    })
}

#[inline(always)]
pub(crate) fn svc(word: u32) -> Option<Inst>
    ensures { result ≡ read_row rows.svc word }
{
    if bits(word, 21, 11) != 0b11010100000 || bits(word, 0, 5) != 0b00001 {
        return None;
    }
    Some(Inst::SvcBrk {
        which: 0,
        imm16: bits(word, 5, 16) as u16,
    })
}

#[inline(always)]
pub(crate) fn brk(word: u32) -> Option<Inst>
    ensures { result ≡ read_row rows.brk word }
{
    if bits(word, 21, 11) != 0b11010100001 || bits(word, 0, 5) != 0b00000 {
        return None;
    }
    Some(Inst::SvcBrk {
        which: 1,
        imm16: bits(word, 5, 16) as u16,
    })
}

#[inline(always)]
pub(crate) fn udf(word: u32) -> Option<Inst>
    ensures { result ≡ read_row rows.udf word }
{
    if bits(word, 16, 16) != 0b0000000000000000 {
        return None;
    }
    Some(Inst::Udf {
        imm16: bits(word, 0, 16) as u16,
    })
}

#[inline(always)]
pub(crate) fn hint(word: u32) -> Option<Inst>
    ensures { result ≡ read_row rows.hint word }
{
    if bits(word, 12, 20) != 0b11010101000000110010 || bits(word, 0, 5) != 0b11111 {
        return None;
    }
    Some(Inst::Hint {
        number: bits(word, 5, 7) as u8,
    })
}
