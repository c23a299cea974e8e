//! The operations of an instruction, row by row.

ghost use Rattle.std.specs.Prelude.{◌≡◌, IsTrue};
ghost use Rattle.a64_inst.specs.Meaning.{ops};
ghost use Rattle.a64_inst.specs.Table.{is_allowed};

use crate::list::OpList;
use a64_inst::{Inst, Op, Trap};

mod accesses;
mod arithmetic;
mod branches;
mod logic;
mod sources;

// What the function of a row makes of the row's fields, one row a line.
macro_rules! by_row {
    ($inst:expr, $($row:ident { $($field:ident),+ } => $module:ident $function:ident;)+) => {
        match $inst {
            $(Inst::$row { $($field),+ } => $module::$function($($field),+),)+
            Inst::Udf { imm16 } => OpList::of(&[Op::Trap(Trap::Udf(imm16))]),
            Inst::Hint { .. } => OpList::of(&[]),
        }
    };
}

/// The operations of an instruction.
pub fn ops(inst: &Inst) -> OpList
    requires { IsTrue (is_allowed inst.now) }
    ensures { result ≡ ops inst.now }
{
    by_row! { *inst,
        AdrAdrp { op, lo, hi, rd } => branches adr_adrp;
        AddSubImm { sf, op, s, sh, imm12, rn, rd } => arithmetic add_sub_imm;
        AddSubShifted { sf, op, s, shift, rm, imm6, rn, rd } => arithmetic add_sub_shifted;
        AddSubExtended { sf, op, s, rm, option, imm3, rn, rd } => arithmetic add_sub_extended;
        LogicalShifted { sf, opc, shift, n, rm, imm6, rn, rd } => logic logical_shifted;
        LogicalImm { sf, opc, n, immr, imms, rn, rd } => logic logical_imm;
        MoveWide { sf, opc, hw, imm16, rd } => logic move_wide;
        Bitfield { sf, opc, n, immr, imms, rn, rd } => logic bitfield;
        Extr { sf, n, rm, imms, rn, rd } => logic extr;
        TwoSources { sf, rm, opcode, rn, rd } => sources two_sources;
        OneSource { sf, opcode, rn, rd } => sources one_source;
        ThreeSources { sf, op, rm, o0, ra, rn, rd } => sources three_sources;
        WithCarry { sf, op, s, rm, rn, rd } => arithmetic with_carry;
        CondCompare { sf, op, rm, cond, i, rn, nzcv } => arithmetic cond_compare;
        CondSelect { sf, op, rm, cond, o2, rn, rd } => sources cond_select;
        BBl { op, imm26 } => branches b_bl;
        BCond { imm19, cond } => branches b_cond;
        CbzCbnz { sf, op, imm19, rt } => branches cbz_cbnz;
        TbzTbnz { b5, op, b40, imm14, rt } => branches tbz_tbnz;
        BrBlrRet { which, rn } => branches br_blr_ret;
        SvcBrk { which, imm16 } => branches svc_brk;
        Literal { opc, imm19, rt } => accesses literal;
        Scaled { size, opc, imm12, rn, rt } => accesses scaled;
        UnscaledPostPre { size, opc, imm9, idx, rn, rt } => accesses unscaled_post_pre;
        Register { size, opc, rm, option, s, rn, rt } => accesses register;
        Pair { opc, idx, l, imm7, rt2, rn, rt } => accesses pair;
    }
}
