//! Instructions of one, two and three sources, and conditional selects.

ghost use Rattle.std.specs.Prelude.{◌≡◌};
ghost use Rattle.a64_inst.specs.Meaning.{ops};
ghost use Rattle.a64_inst.specs.Table.{is_allowed};
ghost use Rattle.a64_inst.specs.declared.inst.Inst.TheVariants.{TwoSources, OneSource, ThreeSources, CondSelect};

use crate::list::OpList;
use crate::parts::{read, write};
use a64_inst::{Binary, Op, Unary, Width};
use a64_numbers::numbers::{sum_of, width};

/// UDIV, SDIV, LSLV, LSRV, ASRV, RORV.
pub fn two_sources(sf: u8, rm: u8, opcode: u8, rn: u8, rd: u8) -> OpList
    ensures { result ≡ ops (TwoSources sf rm opcode rn rd) }
{
    OpList::of_two(rn, rm, Binary::TwoSources(opcode), width(sf), rd)
}

/// RBIT, REV16, REV, REV32, CLZ, CLS.
pub fn one_source(sf: u8, opcode: u8, rn: u8, rd: u8) -> OpList
    ensures { result ≡ ops (OneSource sf opcode rn rd) }
{
    let value = Op::Unary {
        function: Unary::OneSource(opcode),
        width: width(sf),
        value: 0,
    };
    OpList::of(&[read(rn), Op::Keep(rd), value, write(rd, 1)])
}

/// MADD, MSUB, SMADDL, SMSUBL, SMULH, UMADDL, UMSUBL, UMULH.
pub fn three_sources(sf: u8, op: u8, rm: u8, o0: u8, ra: u8, rn: u8, rd: u8) -> OpList
    ensures { result ≡ ops (ThreeSources sf op rm o0 ra rn rd) }
{
    match op {
        0 => OpList::of_product(rn, rm, ra, Binary::Product, width(sf), sum_of(o0), rd),
        1 | 5 => {
            let function = Binary::LongProduct { signed: op == 1 };
            OpList::of_product(rn, rm, ra, function, Width::X, sum_of(o0), rd)
        }
        _ => OpList::of_two(
            rn,
            rm,
            Binary::HighProduct { signed: op == 2 },
            Width::X,
            rd,
        ),
    }
}

/// CSEL, CSINC, CSINV, CSNEG.
pub fn cond_select(sf: u8, op: u8, rm: u8, cond: u8, o2: u8, rn: u8, rd: u8) -> OpList
    ensures { result ≡ ops (CondSelect sf op rm cond o2 rn rd) }
{
    let value = Op::Choose {
        inverted: op == 1,
        more: o2 == 1,
        width: width(sf),
        test: 2,
        first: 0,
        second: 1,
    };
    OpList::of(&[
        read(rn),
        read(rm),
        Op::Condition(cond),
        Op::Keep(rd),
        value,
        write(rd, 3),
    ])
}
