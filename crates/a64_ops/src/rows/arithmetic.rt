//! Sums and differences.

ghost use Rattle.std.specs.Prelude.{◌≡◌, IsTrue};
ghost use Rattle.a64_inst.specs.Meaning.{ops};
ghost use Rattle.a64_inst.specs.Table.{is_allowed};
ghost use Rattle.a64_inst.specs.declared.inst.Inst.TheVariants.{AddSubImm, AddSubShifted, AddSubExtended, WithCarry, CondCompare};

use crate::list::OpList;
use crate::parts::{read, read_or_stack, write_or_stack};
use a64_inst::{Op, Unary};
use a64_numbers::numbers::{immediate, sum_of, width};

/// ADD, ADDS, SUB and SUBS of an immediate.
pub fn add_sub_imm(sf: u8, op: u8, s: u8, sh: u8, imm12: u16, rn: u8, rd: u8) -> OpList
    requires { IsTrue (is_allowed (AddSubImm sf op s sh imm12 rn rd)) }
    ensures { result ≡ ops (AddSubImm sf op s sh imm12 rn rd) }
{
    if sf == 1 && op == 0 && s == 0 && sh == 0 {
        let sum = Op::JoinLow {
            unit: 1,
            field: imm12,
            value: 0,
        };
        return OpList::of(&[read_or_stack(rn), sum, write_or_stack(rd, 1)]);
    }
    let mut list = OpList::of(&[read_or_stack(rn), Op::Number(immediate(imm12, sh))]);
    list.sum_or_stack(width(sf), s, sum_of(op), 1, 2, rd);
    list
}

/// ADD, ADDS, SUB and SUBS of a shifted register.
pub fn add_sub_shifted(sf: u8, op: u8, s: u8, shift: u8, rm: u8, imm6: u8, rn: u8, rd: u8) -> OpList
    ensures { result ≡ ops (AddSubShifted sf op s shift rm imm6 rn rd) }
{
    let function = Unary::Shift {
        kind: shift,
        amount: imm6,
    };
    let shifted = Op::Unary {
        function,
        width: width(sf),
        value: 1,
    };
    let mut list = OpList::of(&[read(rn), read(rm), shifted]);
    list.sum(width(sf), s, sum_of(op), 2, 3, rd);
    list
}

/// ADD, ADDS, SUB and SUBS of an extended register.
pub fn add_sub_extended(
    sf: u8,
    op: u8,
    s: u8,
    rm: u8,
    option: u8,
    imm3: u8,
    rn: u8,
    rd: u8,
) -> OpList
    ensures { result ≡ ops (AddSubExtended sf op s rm option imm3 rn rd) }
{
    let function = Unary::Extend {
        option,
        amount: imm3,
    };
    let extended = Op::Unary {
        function,
        width: width(sf),
        value: 1,
    };
    let mut list = OpList::of(&[read_or_stack(rn), read(rm), extended]);
    list.sum_or_stack(width(sf), s, sum_of(op), 2, 3, rd);
    list
}

/// ADC, ADCS, SBC, SBCS.
pub fn with_carry(sf: u8, op: u8, s: u8, rm: u8, rn: u8, rd: u8) -> OpList
    ensures { result ≡ ops (WithCarry sf op s rm rn rd) }
{
    let (sum, width) = (sum_of(op), width(sf));
    let mut list = OpList::of(&[read(rn), read(rm), Op::Carry]);
    if s == 1 {
        list.extend(&[Op::FlagsOfCarry {
            sum,
            width,
            first: 0,
            second: 1,
            carry: 2,
        }]);
    }
    list.carried_sum(width, sum, rd);
    list
}

/// CCMN, CCMP.
pub fn cond_compare(sf: u8, op: u8, rm: u8, cond: u8, i: u8, rn: u8, nzcv: u8) -> OpList
    ensures { result ≡ ops (CondCompare sf op rm cond i rn nzcv) }
{
    let second = if i == 1 {
        Op::Number(u64::from(rm))
    } else {
        read(rm)
    };
    let flags = Op::FlagsIf {
        sum: sum_of(op),
        width: width(sf),
        test: 2,
        first: 0,
        second: 1,
        nzcv,
    };
    OpList::of(&[read(rn), second, Op::Condition(cond), flags])
}
