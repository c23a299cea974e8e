//! Addresses, branches and system calls.

ghost use Rattle.std.specs.Prelude.{◌≡◌, IsTrue};
ghost use Rattle.a64_inst.specs.Meaning.{ops};
ghost use Rattle.a64_inst.specs.Table.{is_allowed};
ghost use Rattle.a64_inst.specs.declared.inst.Inst.TheVariants.{AdrAdrp, BBl, BCond, CbzCbnz, TbzTbnz, BrBlrRet, SvcBrk};

use crate::list::OpList;
use crate::parts::{read, target, write};
use a64_inst::{Op, Trap, Unary, Width};
use a64_numbers::numbers::{sign_extended, width};

/// ADR, ADRP.
pub fn adr_adrp(op: u8, lo: u8, hi: u32, rd: u8) -> OpList
    ensures { result ≡ ops (AdrAdrp op lo hi rd) }
{
    let bits = u64::from(hi) * 4 + u64::from(lo);
    let offset = if op == 1 {
        sign_extended(Width::X, 33, bits * 4096)
    } else {
        sign_extended(Width::X, 21, bits)
    };
    OpList::of(&[
        Op::Target {
            page: op == 1,
            offset,
        },
        write(rd, 0),
    ])
}

/// B, BL.
pub fn b_bl(op: u8, imm26: u32) -> OpList
    ensures { result ≡ ops (BBl op imm26) }
{
    let at = target(28, imm26);
    if op == 0 {
        OpList::of(&[at, Op::Jump(0)])
    } else {
        OpList::of(&[at, Op::Link, Op::Jump(0)])
    }
}

/// B.cond.
pub fn b_cond(imm19: u32, cond: u8) -> OpList
    ensures { result ≡ ops (BCond imm19 cond) }
{
    OpList::of(&[
        target(21, imm19),
        Op::Condition(cond),
        Op::JumpIf { test: 1, at: 0 },
    ])
}

/// CBZ, CBNZ.
pub fn cbz_cbnz(sf: u8, op: u8, imm19: u32, rt: u8) -> OpList
    ensures { result ≡ ops (CbzCbnz sf op imm19 rt) }
{
    let test = Op::IsZero {
        negated: op == 1,
        width: width(sf),
        value: 1,
    };
    OpList::of(&[
        target(21, imm19),
        read(rt),
        test,
        Op::JumpIf { test: 2, at: 0 },
    ])
}

/// TBZ, TBNZ.
pub fn tbz_tbnz(b5: u8, op: u8, b40: u8, imm14: u16, rt: u8) -> OpList
    requires { IsTrue (is_allowed (TbzTbnz b5 op b40 imm14 rt)) }
    ensures { result ≡ ops (TbzTbnz b5 op b40 imm14 rt) }
{
    let bit = Op::Unary {
        function: Unary::Bit(b5 * 32 + b40),
        width: Width::X,
        value: 1,
    };
    let test = Op::IsZero {
        negated: op == 1,
        width: Width::X,
        value: 2,
    };
    OpList::of(&[
        target(16, u32::from(imm14)),
        read(rt),
        bit,
        test,
        Op::JumpIf { test: 3, at: 0 },
    ])
}

/// BR, BLR, RET; BLR reads its target before it links.
pub fn br_blr_ret(which: u8, rn: u8) -> OpList
    ensures { result ≡ ops (BrBlrRet which rn) }
{
    if which == 1 {
        OpList::of(&[read(rn), Op::Link, Op::Jump(0)])
    } else {
        OpList::of(&[read(rn), Op::Jump(0)])
    }
}

/// SVC, BRK.
pub fn svc_brk(which: u8, imm16: u16) -> OpList
    ensures { result ≡ ops (SvcBrk which imm16) }
{
    OpList::of(&[if which == 0 {
        Op::Call(imm16)
    } else {
        Op::Trap(Trap::Break(imm16))
    }])
}
