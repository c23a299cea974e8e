//! Names of registers, conditions, shifts and extensions, and the bits that stand for them.

ghost use Rattle.std.specs.Prelude.{◌≡◌, map};
ghost use Rattle.a64_forms.specs.Names.{name, names_of};

use crate::form::{NameRow, Names};

// Texts, each with its bits.
macro_rules! names {
    ($($text:literal $bits:literal),+) => {
        [$(($text, $bits)),+]
    };
}

/// 64-bit registers.
pub const X: [NameRow; 32] = names! {
    "x0" 0, "x1" 1, "x2" 2, "x3" 3, "x4" 4, "x5" 5, "x6" 6, "x7" 7,
    "x8" 8, "x9" 9, "x10" 10, "x11" 11, "x12" 12, "x13" 13, "x14" 14, "x15" 15,
    "x16" 16, "x17" 17, "x18" 18, "x19" 19, "x20" 20, "x21" 21, "x22" 22, "x23" 23,
    "x24" 24, "x25" 25, "x26" 26, "x27" 27, "x28" 28, "x29" 29, "x30" 30, "xzr" 31
};

/// 64-bit registers, with the stack pointer.
pub const X_OR_SP: [NameRow; 32] = names! {
    "x0" 0, "x1" 1, "x2" 2, "x3" 3, "x4" 4, "x5" 5, "x6" 6, "x7" 7,
    "x8" 8, "x9" 9, "x10" 10, "x11" 11, "x12" 12, "x13" 13, "x14" 14, "x15" 15,
    "x16" 16, "x17" 17, "x18" 18, "x19" 19, "x20" 20, "x21" 21, "x22" 22, "x23" 23,
    "x24" 24, "x25" 25, "x26" 26, "x27" 27, "x28" 28, "x29" 29, "x30" 30, "sp" 31
};

/// 32-bit registers.
pub const W: [NameRow; 32] = names! {
    "w0" 0, "w1" 1, "w2" 2, "w3" 3, "w4" 4, "w5" 5, "w6" 6, "w7" 7,
    "w8" 8, "w9" 9, "w10" 10, "w11" 11, "w12" 12, "w13" 13, "w14" 14, "w15" 15,
    "w16" 16, "w17" 17, "w18" 18, "w19" 19, "w20" 20, "w21" 21, "w22" 22, "w23" 23,
    "w24" 24, "w25" 25, "w26" 26, "w27" 27, "w28" 28, "w29" 29, "w30" 30, "wzr" 31
};

/// 32-bit registers, with the stack pointer.
pub const W_OR_SP: [NameRow; 32] = names! {
    "w0" 0, "w1" 1, "w2" 2, "w3" 3, "w4" 4, "w5" 5, "w6" 6, "w7" 7,
    "w8" 8, "w9" 9, "w10" 10, "w11" 11, "w12" 12, "w13" 13, "w14" 14, "w15" 15,
    "w16" 16, "w17" 17, "w18" 18, "w19" 19, "w20" 20, "w21" 21, "w22" 22, "w23" 23,
    "w24" 24, "w25" 25, "w26" 26, "w27" 27, "w28" 28, "w29" 29, "w30" 30, "wsp" 31
};

/// Conditions.
pub const CONDITIONS: [NameRow; 16] = names! {
    "eq" 0, "ne" 1, "cs" 2, "cc" 3, "mi" 4, "pl" 5, "vs" 6, "vc" 7,
    "hi" 8, "ls" 9, "ge" 10, "lt" 11, "gt" 12, "le" 13, "al" 14, "nv" 15
};

/// Shifts of the operand of a sum.
pub const SHIFTS: [NameRow; 3] = names! {
    "lsl" 0, "lsr" 1, "asr" 2
};

/// Shifts of the operand of a logical instruction.
pub const SHIFTS_OR_TURN: [NameRow; 4] = names! {
    "lsl" 0, "lsr" 1, "asr" 2, "ror" 3
};

/// The shift to the left.
pub const LEFT: [NameRow; 1] = names! {
    "lsl" 0
};

/// Extensions of a 32-bit register.
pub const EXTENDS_W: [NameRow; 6] = names! {
    "uxtb" 0, "uxth" 1, "uxtw" 2, "sxtb" 4, "sxth" 5, "sxtw" 6
};

/// Extensions of a 64-bit register.
pub const EXTENDS_X: [NameRow; 2] = names! {
    "uxtx" 3, "sxtx" 7
};

/// Extensions.
pub const EXTENDS: [NameRow; 8] = names! {
    "uxtb" 0, "uxth" 1, "uxtw" 2, "uxtx" 3, "sxtb" 4, "sxth" 5, "sxtw" 6, "sxtx" 7
};

/// Extensions of an offset in a 32-bit register.
pub const OFFSETS_W: [NameRow; 2] = names! {
    "uxtw" 2, "sxtw" 6
};

/// Extensions of an offset in a 64-bit register.
pub const OFFSETS_X: [NameRow; 2] = names! {
    "lsl" 3, "sxtx" 7
};

impl Names {
    /// The names of the list.
    pub fn list(self) -> &'static [NameRow]
        ensures { map (λ n. name n.0.now n.1) result.now ≡ names_of self }
    {
        match self {
            Names::X => &X,
            Names::XOrSp => &X_OR_SP,
            Names::W => &W,
            Names::WOrSp => &W_OR_SP,
            Names::Condition => &CONDITIONS,
            Names::Shift => &SHIFTS,
            Names::ShiftOrTurn => &SHIFTS_OR_TURN,
            Names::Left => &LEFT,
            Names::ExtendW => &EXTENDS_W,
            Names::ExtendX => &EXTENDS_X,
            Names::Extend => &EXTENDS,
            Names::OffsetW => &OFFSETS_W,
            Names::OffsetX => &OFFSETS_X,
        }
    }
}
