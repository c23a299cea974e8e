//! Plain fields of a draft: the last record counts, and one of another wire type is skipped.

ghost use Rattle.std.specs.Prelude.{◌≡◌};
ghost use Rattle.gt_model.specs.Schema.{Text as TextKind, Blob, Unsigned64, Signed64, Unsigned32, Signed32, Flag};
ghost use Rattle.gt_read.specs.Drafts.Draft.{kept, drafted_plain};
ghost use Rattle.gt_read.specs.Faults.{plain_faults};
ghost use Rattle.gt_read.specs.Kinds.{value_of, low32};
ghost use Rattle.gt_read.specs.Drafts.Answers.{piece, Answers};

use crate::fault::FormatFault;
use crate::pieces::{Carried, Piece};
use gr_base::{Bytes, End, Text};
use std::alloc::Global;

/// The numbers of 32 bits.
const LOW: u64 = 1 << 32;

pub fn take_text(alloc: Global, slot: &mut Text, part: &Piece<'_>) -> Result<(), End<FormatFault>>
    ensures { Answers result (plain_faults TextKind (piece part.now)) (λ _. slot.new ≡ kept (drafted_plain TextKind) slot.old (value_of TextKind (piece part.now))) }
{
    match &part.carried {
        Carried::Number(_) => Ok(()),
        Carried::Fixed => Ok(()),
        Carried::Bytes(run) => match str::from_utf8(run.bytes) {
            Ok(text) => {
                *slot = Text::from_str(alloc, text)?;
                Ok(())
            }
            Err(_) => Err(End::Fault(FormatFault::Utf8(part.place))),
        },
    }
}

pub fn take_bytes(alloc: Global, slot: &mut Bytes, part: &Piece<'_>) -> Result<(), End<FormatFault>>
    ensures { Answers result (plain_faults Blob (piece part.now)) (λ _. slot.new ≡ kept (drafted_plain Blob) slot.old (value_of Blob (piece part.now))) }
{
    match &part.carried {
        Carried::Number(_) => Ok(()),
        Carried::Fixed => Ok(()),
        Carried::Bytes(run) => {
            *slot = Bytes::from_slice(alloc, run.bytes)?;
            Ok(())
        }
    }
}

pub fn take_unsigned(slot: &mut u64, part: &Piece<'_>)
    ensures { slot.new ≡ kept (drafted_plain Unsigned64) slot.old (value_of Unsigned64 (piece part.now)) }
{
    if let Carried::Number(number) = part.carried {
        *slot = number;
    }
}

pub fn take_signed(slot: &mut i64, part: &Piece<'_>)
    ensures { slot.new ≡ kept (drafted_plain Signed64) slot.old (value_of Signed64 (piece part.now)) }
{
    if let Carried::Number(number) = part.carried {
        *slot = number.cast_signed();
    }
}

/// A varint's low 32 bits.
pub fn low(number: u64) -> u32
    ensures { result ≡ low32 number }
{
    (number % LOW) as u32
}

pub fn take_unsigned32(slot: &mut u32, part: &Piece<'_>)
    ensures { slot.new ≡ kept (drafted_plain Unsigned32) slot.old (value_of Unsigned32 (piece part.now)) }
{
    if let Carried::Number(number) = part.carried {
        *slot = low(number);
    }
}

pub fn take_signed32(slot: &mut i32, part: &Piece<'_>)
    ensures { slot.new ≡ kept (drafted_plain Signed32) slot.old (value_of Signed32 (piece part.now)) }
{
    if let Carried::Number(number) = part.carried {
        *slot = low(number).cast_signed();
    }
}

pub fn take_flag(slot: &mut bool, part: &Piece<'_>)
    ensures { slot.new ≡ kept (drafted_plain Flag) slot.old (value_of Flag (piece part.now)) }
{
    if let Carried::Number(number) = part.carried {
        *slot = number != 0;
    }
}
