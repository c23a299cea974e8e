//! Logical instructions, moves and bit fields.

ghost use Rattle.std.specs.Prelude.{◌≡◌, IsTrue};
ghost use Rattle.a64_inst.specs.Meaning.{ops};
ghost use Rattle.a64_inst.specs.Table.{is_allowed};
ghost use Rattle.a64_inst.specs.declared.inst.Inst.TheVariants.{LogicalShifted, LogicalImm, MoveWide, Bitfield, Extr};

use crate::list::OpList;
use crate::parts::{read, write, write_or_stack};
use a64_inst::{Binary, Op, Unary};
use a64_numbers::fields::mask;
use a64_numbers::numbers::{inverse, placed, width};

/// AND, BIC, ORR, ORN, EOR, EON, ANDS and BICS of a shifted register; ORR of zero and a whole register copies.
pub fn logical_shifted(
    sf: u8,
    opc: u8,
    shift: u8,
    n: u8,
    rm: u8,
    imm6: u8,
    rn: u8,
    rd: u8,
) -> OpList
    ensures { result ≡ ops (LogicalShifted sf opc shift n rm imm6 rn rd) }
{
    if sf == 1 && opc == 1 && n == 0 && imm6 == 0 && rn == 31 {
        return OpList::of(&[read(rm), Op::Copy(0), write(rd, 1)]);
    }
    let width = width(sf);
    let function = Unary::Shift {
        kind: shift,
        amount: imm6,
    };
    let shifted = Op::Unary {
        function,
        width,
        value: 1,
    };
    let function = Binary::Logic {
        opc,
        inverted: n == 1,
    };
    let value = Op::Binary {
        function,
        width,
        first: 0,
        second: 2,
    };
    let mut list = OpList::of(&[read(rn), read(rm), shifted]);
    if opc == 3 {
        list.extend(&[value, Op::FlagsOfLogic { width, value: 3 }, write(rd, 3)]);
    } else {
        list.extend(&[Op::Keep(rd), value, write(rd, 3)]);
    }
    list
}

/// AND, ORR, EOR and ANDS of an immediate.
pub fn logical_imm(sf: u8, opc: u8, n: u8, immr: u8, imms: u8, rn: u8, rd: u8) -> OpList
    requires { IsTrue (is_allowed (LogicalImm sf opc n immr imms rn rd)) }
    ensures { result ≡ ops (LogicalImm sf opc n immr imms rn rd) }
{
    let width = width(sf);
    let function = Binary::Logic {
        opc,
        inverted: false,
    };
    let value = Op::Binary {
        function,
        width,
        first: 0,
        second: 1,
    };
    let mut list = OpList::of(&[read(rn), Op::Number(mask(sf, n, immr, imms)), value]);
    if opc == 3 {
        list.extend(&[Op::FlagsOfLogic { width, value: 2 }, write(rd, 2)]);
    } else {
        list.extend(&[write_or_stack(rd, 2)]);
    }
    list
}

/// MOVN, MOVZ, MOVK.
pub fn move_wide(sf: u8, opc: u8, hw: u8, imm16: u16, rd: u8) -> OpList
    requires { IsTrue (is_allowed (MoveWide sf opc hw imm16 rd)) }
    ensures { result ≡ ops (MoveWide sf opc hw imm16 rd) }
{
    let width = width(sf);
    if opc == 3 {
        let function = Unary::Insert {
            bits: imm16,
            at: 16 * hw,
        };
        let value = Op::Unary {
            function,
            width,
            value: 0,
        };
        return OpList::of(&[read(rd), Op::Keep(rd), value, write(rd, 1)]);
    }
    let number = placed(imm16, hw);
    let number = if opc == 0 {
        inverse(width, number)
    } else {
        number
    };
    OpList::of(&[Op::Number(number), write(rd, 0)])
}

/// SBFM, BFM, UBFM.
pub fn bitfield(sf: u8, opc: u8, n: u8, immr: u8, imms: u8, rn: u8, rd: u8) -> OpList
    ensures { result ≡ ops (Bitfield sf opc n immr imms rn rd) }
{
    let width = width(sf);
    if opc == 1 {
        let function = Binary::BitfieldInto { immr, imms };
        let value = Op::Binary {
            function,
            width,
            first: 1,
            second: 0,
        };
        return OpList::of(&[read(rn), read(rd), Op::Keep(rd), value, write(rd, 2)]);
    }
    let function = Unary::Bitfield {
        signed: opc == 0,
        immr,
        imms,
    };
    let value = Op::Unary {
        function,
        width,
        value: 0,
    };
    OpList::of(&[read(rn), Op::Keep(rd), value, write(rd, 1)])
}

/// EXTR.
pub fn extr(sf: u8, n: u8, rm: u8, imms: u8, rn: u8, rd: u8) -> OpList
    ensures { result ≡ ops (Extr sf n rm imms rn rd) }
{
    OpList::of_two(rn, rm, Binary::Extract(imms), width(sf), rd)
}
