ghost use Rattle.std.specs.Prelude.{◌≡◌, ◌+◌, ◌-◌, ◌^◌, ◌≤◌, length};
ghost use Rattle.gt_read.specs.Pieces.{piece_of};
ghost use Rattle.gt_read.specs.Drafts.Answers.{piece, RunWithin};

use crate::pieces::{Carried, Piece, Run};
use pb_wire::{Load, Record};

/// A record among the bytes of its message, of which the first is at the base.
pub fn carry<'a>(bytes: &'a [u8], base: u64, found: &Record) -> Piece<'a>
    requires within { RunWithin found.now.load bytes.now base }
    requires fits { base + length bytes.now ≤ 2 ^ 64 - 1 }
    ensures { piece result ≡ piece_of bytes.now base found.now }
{
    let carried = match found.load {
        Load::Varint(number) => Carried::Number(number),
        Load::Run(span) => {
            let from = (span.start - base) as usize;
            let bytes = &bytes[from..from + span.len as usize];
            Carried::Bytes(Run {
                start: span.start,
                bytes,
            })
        }
        Load::Eight(_) | Load::Four(_) => Carried::Fixed,
    };
    Piece {
        place: found.place,
        number: found.field,
        carried,
    }
}
