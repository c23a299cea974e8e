//! Rows of loads and stores.

ghost use Rattle.std.specs.Prelude.{◌≡◌};
ghost use Rattle.a64_inst.specs.Rows as rows;
ghost use Rattle.a64_inst.specs.Table.{read_row};

use crate::bits::bits;
use a64_inst::Inst;

#[inline(always)]
pub(crate) fn literal(word: u32) -> Option<Inst>
    ensures { result ≡ read_row rows.literal word }
{
    if bits(word, 24, 6) != 0b011000 {
        return None;
    }
    Some(Inst::Literal {
        opc: bits(word, 30, 2) as u8,
        imm19: bits(word, 5, 19),
        rt: bits(word, 0, 5) as u8,
    })
}

#[inline(always)]
pub(crate) fn scaled(word: u32) -> Option<Inst>
    ensures { result ≡ read_row rows.scaled word }
{
    if bits(word, 24, 6) != 0b111001 {
        return None;
    }
    Some(Inst::Scaled {
        size: bits(word, 30, 2) as u8,
        opc: bits(word, 22, 2) as u8,
        imm12: bits(word, 10, 12) as u16,
        rn: bits(word, 5, 5) as u8,
        rt: bits(word, 0, 5) as u8,
    })
}

#[inline(always)]
pub(crate) fn unscaled_post_pre(word: u32) -> Option<Inst>
    ensures { result ≡ read_row rows.unscaled_post_pre word }
{
    if bits(word, 24, 6) != 0b111000 || bits(word, 21, 1) != 0b0 {
        return None;
    }
    Some(Inst::UnscaledPostPre {
        size: bits(word, 30, 2) as u8,
        opc: bits(word, 22, 2) as u8,
        imm9: bits(word, 12, 9) as u16,
        idx: bits(word, 10, 2) as u8,
        rn: bits(word, 5, 5) as u8,
        rt: bits(word, 0, 5) as u8,
    })
}

#[inline(always)]
pub(crate) fn register(word: u32) -> Option<Inst>
    ensures { result ≡ read_row rows.register word }
{
    if bits(word, 24, 6) != 0b111000 || bits(word, 21, 1) != 0b1 || bits(word, 10, 2) != 0b10 {
        return None;
    }
    Some(Inst::Register {
        size: bits(word, 30, 2) as u8,
        opc: bits(word, 22, 2) as u8,
        rm: bits(word, 16, 5) as u8,
        option: bits(word, 13, 3) as u8,
        s: bits(word, 12, 1) as u8,
        rn: bits(word, 5, 5) as u8,
        rt: bits(word, 0, 5) as u8,
    })
}

#[inline(always)]
pub(crate) fn pair(word: u32) -> Option<Inst>
    ensures { result ≡ read_row rows.pair word }
{
    if bits(word, 25, 5) != 0b10100 {
        return None;
    }
    Some(Inst::Pair {
        opc: bits(word, 30, 2) as u8,
        idx: bits(word, 23, 2) as u8,
        l: bits(word, 22, 1) as u8,
        imm7: bits(word, 15, 7) as u8,
        rt2: bits(word, 10, 5) as u8,
        rn: bits(word, 5, 5) as u8,
        rt: bits(word, 0, 5) as u8,
    })
}
