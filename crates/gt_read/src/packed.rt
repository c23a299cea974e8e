//! Repeated numbers, each in a record of its own or many in a packed run.

ghost use Rattle.std.specs.Prelude.{◌≡◌, ◌++◌, None};
ghost use Rattle.gt_model.specs.Schema.{Signed32};
ghost use Rattle.gt_read.specs.Drafts.Draft.{added_all};
ghost use Rattle.gt_read.specs.Faults.{packed_faults, in_run};
ghost use Rattle.gt_read.specs.Kinds.{values_of, packed, packed_signed};
ghost use Rattle.gt_read.specs.Drafts.Answers.{piece, Answers};

use crate::fault::FormatFault;
use crate::pieces::{Carried, Piece};
use crate::slots::low;
use gr_base::{End, Seq};
use pb_wire::{WireFault, laws, read_varint};

/// The numbers of a packed run, whose record stands at the place.
fn take_packed(slot: &mut Seq<i32>, place: u64, bytes: &[u8]) -> Result<(), End<FormatFault>>
    ensures { Answers result (packed_faults Signed32 place bytes.now) (λ _. slot.new ≡ slot.old ++ packed_signed bytes.now) }
{
    laws::varints_are_read();
    let mut rest = bytes;
    while !rest.is_empty() {
        match read_varint(rest) {
            Ok((number, size)) => {
                slot.push(low(number).cast_signed())?;
                let (_, behind) = rest.split_at(size);
                rest = behind;
            }
            Err(reason) => return Err(End::Fault(FormatFault::Wire(WireFault { place, reason }))),
        }
    }
    Ok(())
}

pub fn take_numbers(slot: &mut Seq<i32>, part: &Piece<'_>) -> Result<(), End<FormatFault>>
    ensures { Answers result (in_run (λ place start bytes. packed_faults Signed32 place bytes) part.now.place (piece part.now).carried)
        (λ _. (slot.new, None) ≡ added_all Signed32 (slot.old, None) (values_of Signed32 (piece part.now))) }
{
    match &part.carried {
        Carried::Number(number) => {
            slot.push(low(*number).cast_signed())?;
            Ok(())
        }
        Carried::Fixed => Ok(()),
        Carried::Bytes(run) => take_packed(slot, part.place, run.bytes),
    }
}
