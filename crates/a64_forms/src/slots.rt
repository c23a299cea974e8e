//! The slots of the forms: names, by where their bits end in the word, and numbers.

use crate::form::{Aim, Names, Slot};
use a64_inst::{Bits, Kind, Operand};

// A number from `least` to `most`, in units, whose bits are so many and end at a place.
macro_rules! number {
    ($least:literal to $most:literal by $unit:literal in $width:literal at $place:literal) => {
        Slot::Number(Operand {
            least: $least,
            most: $most,
            unit: $unit,
            low: Bits {
                width: $width,
                place: $place,
            },
            high: Bits { width: 0, place: 0 },
        })
    };
}

pub const RD: Slot = Slot::Name(Names::X, 0);

pub const RN: Slot = Slot::Name(Names::X, 5);

pub const RA: Slot = Slot::Name(Names::X, 10);

pub const RM: Slot = Slot::Name(Names::X, 16);

pub const SPD: Slot = Slot::Name(Names::XOrSp, 0);

pub const SPN: Slot = Slot::Name(Names::XOrSp, 5);

pub const WD: Slot = Slot::Name(Names::W, 0);

pub const WN: Slot = Slot::Name(Names::W, 5);

pub const WA: Slot = Slot::Name(Names::W, 10);

pub const WM: Slot = Slot::Name(Names::W, 16);

pub const WSPD: Slot = Slot::Name(Names::WOrSp, 0);

pub const WSPN: Slot = Slot::Name(Names::WOrSp, 5);

pub const CONDITION: Slot = Slot::Name(Names::Condition, 12);

pub const SHIFT: Slot = Slot::Name(Names::Shift, 22);

pub const SHIFT_OR_TURN: Slot = Slot::Name(Names::ShiftOrTurn, 22);

pub const LEFT: Slot = Slot::Name(Names::Left, 22);

pub const EXTEND_W: Slot = Slot::Name(Names::ExtendW, 13);

pub const EXTEND_X: Slot = Slot::Name(Names::ExtendX, 13);

pub const EXTEND: Slot = Slot::Name(Names::Extend, 13);

pub const OFFSET_W: Slot = Slot::Name(Names::OffsetW, 13);

pub const OFFSET_X: Slot = Slot::Name(Names::OffsetX, 13);

pub const IMM12: Slot = number!(0 to 4095 by 1 in 12 at 10);

pub const IMM12_SHIFT: Slot = number!(0 to 12 by 12 in 1 at 22);

pub const AMOUNT64: Slot = number!(0 to 63 by 1 in 6 at 10);

pub const AMOUNT32: Slot = number!(0 to 31 by 1 in 6 at 10);

pub const ROTATION64: Slot = number!(0 to 63 by 1 in 6 at 16);

pub const ROTATION32: Slot = number!(0 to 31 by 1 in 6 at 16);

pub const IMM16: Slot = number!(0 to 65535 by 1 in 16 at 5);

pub const IMM16_LOW: Slot = number!(0 to 65535 by 1 in 16 at 0);

pub const HALF64: Slot = number!(0 to 48 by 16 in 2 at 21);

pub const HALF32: Slot = number!(0 to 16 by 16 in 2 at 21);

pub const IMM5: Slot = number!(0 to 31 by 1 in 5 at 16);

pub const FLAGS: Slot = number!(0 to 15 by 1 in 4 at 0);

pub const BIT: Slot = number!(0 to 31 by 1 in 5 at 19);

pub const BIT_ABOVE: Slot = number!(32 to 63 by 1 in 5 at 19);

pub const HINT: Slot = number!(0 to 127 by 1 in 7 at 5);

pub const UNSIGNED1: Slot = number!(0 to 4095 by 1 in 12 at 10);

pub const UNSIGNED2: Slot = number!(0 to 8190 by 2 in 12 at 10);

pub const UNSIGNED4: Slot = number!(0 to 16380 by 4 in 12 at 10);

pub const UNSIGNED8: Slot = number!(0 to 32760 by 8 in 12 at 10);

pub const SIGNED: Slot = number!(-256 to 255 by 1 in 9 at 12);

pub const SCALE1: Slot = number!(0 to 0 by 1 in 0 at 12);

pub const SCALE2: Slot = number!(0 to 1 by 1 in 1 at 12);

pub const SCALE4: Slot = number!(0 to 2 by 2 in 1 at 12);

pub const SCALE8: Slot = number!(0 to 3 by 3 in 1 at 12);

pub const PAIR4: Slot = number!(-256 to 252 by 4 in 7 at 15);

pub const PAIR8: Slot = number!(-512 to 504 by 8 in 7 at 15);

pub const EXTEND_AMOUNT: Slot = number!(0 to 4 by 1 in 3 at 10);

pub const ADR: Slot = Slot::Distance(Kind::Adr);

pub const PAGE: Slot = Slot::Distance(Kind::Page);

pub const REL26: Slot = Slot::Distance(Kind::Rel26);

pub const REL19: Slot = Slot::Distance(Kind::Rel19);

pub const REL14: Slot = Slot::Distance(Kind::Rel14);

pub const MASK64: Slot = Slot::Mask(1);

pub const MASK32: Slot = Slot::Mask(0);

pub const LABEL: Slot = Slot::Aim(Aim::Label);

pub const EXPRESSION: Slot = Slot::Aim(Aim::Expression);
