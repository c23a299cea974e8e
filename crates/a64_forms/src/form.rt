//! What the spellings of instructions are made of.

use a64_inst::{Kind, Operand};

/// A text, and the bits that it stands for.
pub type NameRow = (&'static str, u32);

/// What a line names in place of a number.
#[derive(Clone, Copy, Debug, PartialEq, Eq)]
pub enum Aim {
    /// A label.
    Label,
    /// A label, perhaps with an offset.
    Expression,
}

/// Lists of names.
#[derive(Clone, Copy, Debug, PartialEq, Eq)]
pub enum Names {
    /// 64-bit registers, with the zero register.
    X,
    /// 64-bit registers, with the stack pointer.
    XOrSp,
    /// 32-bit registers, with the zero register.
    W,
    /// 32-bit registers, with the stack pointer.
    WOrSp,
    /// Conditions.
    Condition,
    /// Shifts of the operand of a sum.
    Shift,
    /// Shifts of the operand of a logical instruction.
    ShiftOrTurn,
    /// The shift to the left, where there is no other.
    Left,
    /// Extensions of a 32-bit register.
    ExtendW,
    /// Extensions of a 64-bit register.
    ExtendX,
    /// All extensions.
    Extend,
    /// Extensions of an offset in a 32-bit register.
    OffsetW,
    /// Extensions of an offset in a 64-bit register.
    OffsetX,
}

/// What can stand in a piece of a line.
#[derive(Clone, Copy, Debug, PartialEq, Eq)]
pub enum Slot {
    /// A name of the list, whose bits end at this place of the word.
    Name(Names, u32),
    /// A number.
    Number(Operand),
    /// A distance, as the kind of operand takes it.
    Distance(Kind),
    /// A logical immediate, at the width that this `sf` names.
    Mask(u8),
    /// What the operand is found from, which leaves its bits 0.
    Aim(Aim),
}

/// Which numbers stand where a form has one.
#[derive(Clone, Copy, Debug, PartialEq, Eq)]
pub enum Numbers {
    /// Those that fit.
    Fitting,
    /// Any number word, where some number fits; it leaves its bits 0.
    Any,
}

/// The text before a slot, the slot, and the text behind it.
pub type PieceRow = (&'static str, Slot, &'static str);

/// Two registers that a line may not name alike, by the places where their bits end in the word.
#[derive(Clone, Copy, Debug, PartialEq, Eq)]
pub enum Apart {
    /// They differ.
    Always(u32, u32),
    /// They differ, or the first is the stack pointer.
    UnlessSp(u32, u32),
}

/// Spellings that differ in their mnemonics alone: the mnemonics with the bits of their words, the
/// pieces behind, and which registers differ.
pub type FormRow = (&'static [NameRow], &'static [PieceRow], &'static [Apart]);
