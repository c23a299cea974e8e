//! The operations that an instruction is made of.

use crate::trap::Trap;

/// The width of an operand, by the name of the registers that have it.
#[derive(Clone, Copy, Debug, PartialEq, Eq)]
pub enum Width {
    /// 32 bits.
    W,
    /// 64 bits.
    X,
}

/// Whether the second operand of a sum is added or subtracted.
#[derive(Clone, Copy, Debug, PartialEq, Eq)]
pub enum Sum {
    Add,
    Subtract,
}

/// A function of one number.
#[derive(Clone, Copy, Debug, PartialEq, Eq)]
pub enum Unary {
    /// Sixteen bits in the place of those from a place on (MOVK).
    Insert { bits: u16, at: u8 },
    /// A shift: 0 to the left, 1 to the right, 2 to the right with copies of the top bit, 3 round to the right.
    Shift { kind: u8, amount: u8 },
    /// The low 8, 16, 32 or 64 bits as an option names them, extended, and then shifted to the left (ExtendReg).
    Extend { option: u8, amount: u8 },
    /// Bits moved down to 0, or from 0 up, and where it is signed the topmost of them copied upward (UBFM, SBFM).
    Bitfield { signed: bool, immr: u8, imms: u8 },
    /// The number itself for a sum, and all its bits turned round for a difference (AddWithCarry).
    Addend(Sum),
    /// What the opcode of a row of one source names: RBIT, REV16, REV32, REV, CLZ, CLS.
    OneSource(u8),
    /// One bit.
    Bit(u8),
}

/// A function of two numbers.
#[derive(Clone, Copy, Debug, PartialEq, Eq)]
pub enum Binary {
    /// What an opc of the logical rows names, where it is so with the second number inverted.
    Logic { opc: u8, inverted: bool },
    /// What the opcode of a row of two sources names: UDIV, SDIV, LSLV, LSRV, ASRV, RORV.
    TwoSources(u8),
    /// Bits of the second number moved as by `Bitfield` into the first (BFM).
    BitfieldInto { immr: u8, imms: u8 },
    /// Bits of both numbers from a place of the second on (EXTR).
    Extract(u8),
    /// The low bits of the product.
    Product,
    /// The product of the low 32 bits of each.
    LongProduct { signed: bool },
    /// The upper 64 bits of the product of 64 bits each.
    HighProduct { signed: bool },
    /// A sum of numbers alone.
    PlainSum(Sum),
}

/// An operation. Those up to `Choose` give a value, which later ones name by its place among the values so
/// far. Register 31 is the stack pointer where `stack` says so, and else zero.
#[derive(Clone, Copy, Debug, PartialEq, Eq)]
pub enum Op {
    Number(u64),
    /// The target of an expression; else the place of the instruction, or its page of 4096, plus so much modulo 2^64.
    Target {
        page: bool,
        offset: u64,
    },
    Read {
        stack: bool,
        register: u8,
    },
    /// The flag C, as 1 or 0.
    Carry,
    /// A value as it is.
    Copy(u8),
    Unary {
        function: Unary,
        width: Width,
        value: u8,
    },
    Binary {
        function: Binary,
        width: Width,
        first: u8,
        second: u8,
    },
    Sum {
        sum: Sum,
        width: Width,
        first: u8,
        second: u8,
    },
    /// A value joined with the low twelve bits of an expression's target; else plus a field times a unit.
    JoinLow {
        unit: u8,
        field: u16,
        value: u8,
    },
    /// What stands at an address, with its sign to a width or without.
    Load {
        bytes: u8,
        signed: bool,
        width: Width,
        at: u8,
    },
    /// Whether the flags hold a condition, as 1 or 0.
    Condition(u8),
    /// Whether a value is 0, or where it is negated isn't, as 1 or 0.
    IsZero {
        negated: bool,
        width: Width,
        value: u8,
    },
    /// The first value where a test holds, else the second, inverted and one more as the truths say.
    Choose {
        inverted: bool,
        more: bool,
        width: Width,
        test: u8,
        first: u8,
        second: u8,
    },
    Store {
        bytes: u8,
        value: u8,
        at: u8,
    },
    Write {
        stack: bool,
        register: u8,
        value: u8,
    },
    FlagsOfSum {
        sum: Sum,
        width: Width,
        first: u8,
        second: u8,
    },
    FlagsOfCarry {
        sum: Sum,
        width: Width,
        first: u8,
        second: u8,
        carry: u8,
    },
    /// The flags of a logical result.
    FlagsOfLogic {
        width: Width,
        value: u8,
    },
    /// The flags of a sum where a test holds, else those that four bits name.
    FlagsIf {
        sum: Sum,
        width: Width,
        test: u8,
        first: u8,
        second: u8,
        nzcv: u8,
    },
    /// Register 30 gets the place after the instruction.
    Link,
    /// The system is called with this immediate.
    Call(u16),
    /// The rest is left out where this register, 31 for zero, keeps no result.
    Keep(u8),
    /// On at a value, which is the last operation, as the two after it are.
    Jump(u8),
    JumpIf {
        test: u8,
        at: u8,
    },
    Trap(Trap),
}
