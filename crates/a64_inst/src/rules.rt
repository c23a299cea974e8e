//! Whether there is a word of an instruction.

ghost use Rattle.std.specs.Prelude.{◌≡◌};
ghost use Rattle.a64_inst.specs.Reserved.{is_reserved, names_word};
ghost use Rattle.a64_inst.specs.Table.{is_allowed};

use crate::inst::Inst;
use crate::reserved::{
    is_no_access, is_no_bitfield, is_no_extract, is_no_indexed, is_no_mask, is_no_move,
    is_no_offset, is_no_pair, is_no_shift, is_not_of_one, is_not_of_two, is_past_32, is_product,
};
use crate::words;

impl Inst {
    /// Whether there is a word of this instruction.
    pub fn is_allowed(&self) -> bool
        ensures { result ≡ is_allowed self.now }
    {
        words::fields_fit(self) && self.names_word() && !self.is_reserved()
    }

    // Whether `which` counts a word of the row.
    fn names_word(&self) -> bool
        ensures { result ≡ names_word self.now }
    {
        match *self {
            Inst::SvcBrk { which, .. } => which < 2,
            Inst::BrBlrRet { which, .. } => which < 3,
            _ => true,
        }
    }

    /// Whether the row keeps these fields out, which fit their bits.
    pub fn is_reserved(&self) -> bool
        ensures { result ≡ is_reserved self.now }
    {
        match *self {
            Inst::AdrAdrp { .. } => false,
            Inst::AddSubImm { .. } => false,
            Inst::AddSubShifted {
                sf,
                shift,
                imm6,
                ..
            } => is_no_shift(sf, shift, imm6),
            Inst::AddSubExtended { imm3, .. } => imm3 > 4,
            Inst::LogicalShifted { sf, imm6, .. } => is_past_32(sf, imm6),
            Inst::LogicalImm { sf, n, imms, .. } => is_no_mask(sf, n, imms),
            Inst::MoveWide { sf, opc, hw, .. } => is_no_move(sf, opc, hw),
            Inst::Bitfield {
                sf,
                opc,
                n,
                immr,
                imms,
                ..
            } => is_no_bitfield(sf, opc, n, immr, imms),
            Inst::Extr { sf, n, imms, .. } => is_no_extract(sf, n, imms),
            Inst::TwoSources { opcode, .. } => is_not_of_two(opcode),
            Inst::OneSource { sf, opcode, .. } => is_not_of_one(sf, opcode),
            Inst::ThreeSources { sf, op, o0, ra, .. } => !is_product(sf, op, o0, ra),
            Inst::WithCarry { .. } => false,
            Inst::CondCompare { .. } => false,
            Inst::CondSelect { .. } => false,
            Inst::BBl { .. } => false,
            Inst::BCond { .. } => false,
            Inst::CbzCbnz { .. } => false,
            Inst::TbzTbnz { .. } => false,
            Inst::BrBlrRet { .. } => false,
            Inst::SvcBrk { .. } => false,
            Inst::Udf { .. } => false,
            Inst::Hint { .. } => false,
            Inst::Literal { opc, .. } => opc == 3,
            Inst::Scaled { size, opc, .. } => is_no_access(size, opc),
            Inst::UnscaledPostPre {
                size,
                opc,
                idx,
                rn,
                rt,
                ..
            } => is_no_indexed(size, opc, idx, rn, rt),
            Inst::Register {
                size,
                opc,
                option,
                ..
            } => is_no_offset(size, opc, option),
            Inst::Pair {
                opc,
                idx,
                l,
                rt2,
                rn,
                rt,
                ..
            } => is_no_pair(opc, idx, l, rt2, rn, rt),
        }
    }
}
