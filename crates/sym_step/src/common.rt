//! Instructions of common kinds, which are done with no list of operations.

ghost use Rattle.std.specs.Prelude.{◌≡◌, ◌+◌, IfSome, IsTrue};
ghost use Rattle.std.specs.List.{list_all};
ghost use Rattle.a64_ops.specs.Sound.{is_sound};
ghost use Rattle.sym_step.specs.Common.{common_ops, is_sound_end, end_ops, start_ops};

use a64_inst::{Op, Sum, Unary, Width};

/// How a common instruction makes its first value, of a register's.
#[derive(Clone, Copy, Debug, PartialEq, Eq)]
pub enum Start {
    /// Joined with the low bits of a target, or with so many units more.
    Joined {
        stack: bool,
        register: u8,
        unit: u8,
        field: u16,
    },
    /// With a number added or subtracted.
    Summed {
        stack: bool,
        register: u8,
        sum: Sum,
        width: Width,
        number: u64,
    },
}

/// What a common instruction does with its first value.
#[derive(Clone, Copy, Debug, PartialEq, Eq)]
pub enum End {
    /// Keeps it in a register.
    Write {
        stack: bool,
        register: u8,
    },
    /// Loads from there.
    Load {
        bytes: u8,
        signed: bool,
        width: Width,
        stack: bool,
        register: u8,
    },
    /// Stores a register there, through a function.
    Store {
        bytes: u8,
        stack: bool,
        register: u8,
        function: Unary,
        width: Width,
    },
}

/// A common instruction: what gives its first value, and what comes of it.
#[derive(Clone, Copy, Debug, PartialEq, Eq)]
pub struct Common {
    pub start: Start,
    pub end: End,
}

/// The end of a common instruction whose first value is at a place, if operations are one.
fn end_of(ops: &[Op], place: u8) -> Option<End>
    requires { IsTrue (list_all is_sound ops.now) }
    ensures ops { IfSome result (λ end. ops.now ≡ end_ops place end) }
    ensures sound { IfSome result (λ end. IsTrue (is_sound_end end)) }
{
    match *ops {
        [
            Op::Write {
                stack,
                register,
                value,
            },
        ] if value == place => Some(End::Write { stack, register }),
        [
            Op::Load {
                bytes,
                signed,
                width,
                at,
            },
            Op::Write {
                stack,
                register,
                value,
            },
        ] if at == place && u16::from(value) == u16::from(place) + 1 => Some(End::Load {
            bytes,
            signed,
            width,
            stack,
            register,
        }),
        [
            Op::Read { stack, register },
            Op::Unary {
                function,
                width,
                value,
            },
            Op::Store {
                bytes,
                value: kept,
                at,
            },
        ] if u16::from(value) == u16::from(place) + 1
            && u16::from(kept) == u16::from(place) + 2
            && at == place => {
            Some(End::Store {
                bytes,
                stack,
                register,
                function,
                width,
            })
        }
        _ => None,
    }
}

/// The common instruction whose operations these are, if they are those of one.
pub fn common_of(ops: &[Op]) -> Option<Common>
    requires { IsTrue (list_all is_sound ops.now) }
    ensures ops { IfSome result (λ common. ops.now ≡ common_ops common) }
    ensures sound { IfSome result (λ common. IsTrue (is_sound_end common.end)) }
{
    match *ops {
        [
            Op::Read { stack, register },
            Op::JoinLow {
                unit,
                field,
                value: 0,
            },
            ref rest @ ..,
        ] => {
            let end = end_of(rest, 1)?;
            let start = Start::Joined {
                stack,
                register,
                unit,
                field,
            };
            Some(Common { start, end })
        }
        [
            Op::Read { stack, register },
            Op::Number(number),
            Op::Sum {
                sum,
                width,
                first: 0,
                second: 1,
            },
            ref rest @ ..,
        ] => {
            let end = end_of(rest, 2)?;
            let start = Start::Summed {
                stack,
                register,
                sum,
                width,
                number,
            };
            Some(Common { start, end })
        }
        _ => None,
    }
}
