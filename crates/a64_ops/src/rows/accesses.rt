//! Loads and stores.

ghost use Rattle.std.specs.Prelude.{◌≡◌, ◌*◌, ◌^◌, IsTrue};
ghost use Rattle.a64_inst.specs.Meaning.{ops};
ghost use Rattle.a64_inst.specs.Table.{is_allowed};
ghost use Rattle.a64_inst.specs.declared.inst.Inst.TheVariants.{Literal, Scaled, UnscaledPostPre, Register, Pair};
ghost use Rattle.a64_inst.specs.Meaning.{pair_size};
ghost use Rattle.a64_inst.specs.Numbers.{low, sign_extended};

use crate::list::OpList;
use crate::parts::{power, read, read_or_stack, target, write, write_or_stack};
use a64_inst::{Op, Sum, Unary, Width};
use a64_numbers::numbers::sign_extended;

// The sum of value 0 and another, an address.
fn address(second: u8) -> Op
    ensures { result ≡ Op.Sum Sum.Add Width.X 0 second }
{
    Op::Sum {
        sum: Sum::Add,
        width: Width::X,
        first: 0,
        second,
    }
}

/// LDR and LDRSW of a literal.
pub fn literal(opc: u8, imm19: u32, rt: u8) -> OpList
    ensures { result ≡ ops (Literal opc imm19 rt) }
{
    let bytes = if opc == 1 { 8 } else { 4 };
    let load = Op::Load {
        bytes,
        signed: opc == 2,
        width: Width::X,
        at: 0,
    };
    OpList::of(&[target(21, imm19), load, write(rt, 1)])
}

/// Loads and stores with an unsigned offset in units of their size.
pub fn scaled(size: u8, opc: u8, imm12: u16, rn: u8, rt: u8) -> OpList
    requires { IsTrue (is_allowed (Scaled size opc imm12 rn rt)) }
    ensures { result ≡ ops (Scaled size opc imm12 rn rt) }
{
    let sum = Op::JoinLow {
        unit: power(size),
        field: imm12,
        value: 0,
    };
    let mut list = OpList::of(&[read_or_stack(rn), sum]);
    list.access(size, opc, rt, 1, 2);
    list
}

/// Loads and stores with a signed offset: unscaled, post-indexed and pre-indexed.
pub fn unscaled_post_pre(size: u8, opc: u8, imm9: u16, idx: u8, rn: u8, rt: u8) -> OpList
    requires { IsTrue (is_allowed (UnscaledPostPre size opc imm9 idx rn rt)) }
    ensures { result ≡ ops (UnscaledPostPre size opc imm9 idx rn rt) }
{
    let offset = sign_extended(Width::X, 9, u64::from(imm9));
    let mut list = OpList::of(&[read_or_stack(rn), Op::Number(offset), address(1)]);
    list.access(size, opc, rt, if idx == 1 { 0 } else { 2 }, 3);
    if idx != 0 {
        list.extend(&[write_or_stack(rn, 2)]);
    }
    list
}

/// Loads and stores with an offset in a register.
pub fn register(size: u8, opc: u8, rm: u8, option: u8, s: u8, rn: u8, rt: u8) -> OpList
    requires { IsTrue (is_allowed (Register size opc rm option s rn rt)) }
    ensures { result ≡ ops (Register size opc rm option s rn rt) }
{
    let function = Unary::Extend {
        option,
        amount: s * size,
    };
    let offset = Op::Unary {
        function,
        width: Width::X,
        value: 1,
    };
    let mut list = OpList::of(&[read_or_stack(rn), read(rm), offset, address(2)]);
    list.access(size, opc, rt, 3, 4);
    list
}

// The signed offset of a pair, in units of its size.
fn pair_offset(opc: u8, imm7: u8) -> u64
    ensures { result ≡ low 64 (sign_extended 7 64 imm7 * 2 ^ pair_size opc) }
{
    let unit = if opc == 2 { 8 } else { 4 };
    sign_extended(Width::X, 7, u64::from(imm7)).wrapping_mul(unit)
}

/// LDP, LDPSW, STP.
pub fn pair(opc: u8, idx: u8, l: u8, imm7: u8, rt2: u8, rn: u8, rt: u8) -> OpList
    ensures { result ≡ ops (Pair opc idx l imm7 rt2 rn rt) }
{
    let offset = pair_offset(opc, imm7);
    let mut list = OpList::of(&[read_or_stack(rn), Op::Number(offset), address(1)]);
    list.pair(opc, l, rt, rt2, if idx == 1 { 0 } else { 2 });
    if idx != 2 {
        list.extend(&[write_or_stack(rn, 2)]);
    }
    list
}
