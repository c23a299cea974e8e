ghost use Rattle.std.specs.Prelude.{◌≡◌, ◌+◌, ◌-◌, ◌^◌, ◌≤◌, ◌++◌, ℕ, List, Option, length, IfOk, IfErr};
ghost use Rattle.gt_read.specs.Pieces.{Piece as SpecPiece, pieces};
ghost use Rattle.gt_read.specs.declared.fault.FormatFault.{FormatFault};
ghost use Rattle.gt_read.specs.declared.ids.IdFault.{IdFault};
ghost use Rattle.gt_read.specs.Faults.{message_faults};
ghost use Rattle.gt_read.specs.Drafts.Answers.{piece, Answers, Folds, IsFirst, WasRead};
ghost use Rattle.gt_read.specs.Drafts.Taken.{TakesFront};

use crate::carry::carry;
use crate::fault::FormatFault;
use crate::ids::IdFault;
use crate::pieces::{Piece, Run};
use gr_base::End;
use pb_wire::{Cursor, Scan, laws, scan};
use std::alloc::{AllocError, Global};

/// The draft of a message, which takes one record after another.
pub trait Message: Drop {
    /// The message that the draft comes to.
    type Made: Drop;

    ghost starts: { ℕ → Self → Type 0 };

    ghost steps: { Self → SpecPiece → Self → Type 0 };

    ghost faults: { SpecPiece → List FormatFault };

    ghost finishes: { Self → Self.Made → Option IdFault → Type 0 };

    /// The draft before any record, of which the first stands at the place.
    fn start(alloc: Global, place: u64) -> Self
        ensures { starts place result };

    /// Takes one record. After an `Err` nothing is said of the draft.
    fn take(&mut self, alloc: Global, part: &Piece<'_>) -> Result<(), End<FormatFault>>
        ensures { Answers result (faults (piece part.now)) (λ _. steps self.old (piece part.now) self.new) };

    /// The message, and the first identifier in it that is at fault.
    fn finish(self, alloc: Global) -> Result<(Self::Made, Option<IdFault>), AllocError>
        ensures { IfOk result (λ made. finishes self made.0 made.1) };
}

/// Takes each record of the bytes, of which the first is at the base.
pub fn merge<M: Message>(
    alloc: Global,
    draft: &mut M,
    bytes: &[u8],
    base: u64,
) -> Result<(), End<FormatFault>>
    requires { base + length bytes.now ≤ 2 ^ 64 - 1 }
    ensures { Answers result (message_faults M.faults bytes.now base) (λ _. Folds M.steps draft.old (pieces bytes.now base) draft.new) }
{
    laws::records_are_read();
    let mut cursor = Cursor::new(bytes, base);
    'records: loop {
        match cursor.next() {
            Ok(None) => return Ok(()),
            Ok(Some(record)) => draft.take(alloc, &carry(bytes, base, &record))?,
            Err(fault) => return Err(End::Fault(FormatFault::Wire(fault))),
        }
    }
}

/// Takes the whole records at the front of bytes, of which the first is at the base, and answers how
/// many bytes they have. After an `Err` nothing is said of the draft.
pub fn take_front<M: Message>(
    alloc: Global,
    draft: &mut M,
    bytes: &[u8],
    base: u64,
) -> Result<usize, End<FormatFault>>
    requires { base + length bytes.now ≤ 2 ^ 64 - 1 }
    ensures ok { IfOk result (λ size. TakesFront M.steps M.faults bytes.now base draft.old size draft.new) }
    ensures err { IfErr result (λ end. (rest : List ℕ) → IsFirst (message_faults M.faults (bytes.now ++ rest) base) end) }
{
    laws::records_are_read();
    let mut at = 0;
    'records: loop {
        let left = &bytes[at..];
        let place = base + at as u64;
        match scan(left, place) {
            Ok(Scan::Whole(record, size)) => {
                draft.take(alloc, &carry(left, place, &record))?;
                at += size as usize;
            }
            Ok(Scan::Short) => return Ok(at),
            Err(fault) => return Err(End::Fault(FormatFault::Wire(fault))),
        }
    }
}

/// Reads a whole message, whose record stands at the place.
pub fn read_message<M: Message>(
    alloc: Global,
    place: u64,
    run: &Run<'_>,
) -> Result<(M::Made, Option<IdFault>), End<FormatFault>>
    ensures { Answers result (message_faults M.faults run.now.bytes.now run.now.start)
        (λ made. WasRead M.starts M.steps M.finishes place (pieces run.now.bytes.now run.now.start) made.0 made.1) }
{
    let mut draft = M::start(alloc, place);
    merge(alloc, &mut draft, run.bytes, run.start)?;
    Ok(draft.finish(alloc)?)
}
