//! The bytes of an interval, piece by piece.

ghost use Rattle.std.specs.Prelude.{◌≡◌, ◌<◌, ◌≤◌, ◌+◌, ◌^◌, ◌++◌, replicate, IfOk, OnOk};
ghost use Rattle.std.specs.List.{AllByRecursion};
ghost use Rattle.sym_expr.specs.Images.{first_fault, piece_bytes, piece_faults, stretch_bytes, stretch_faults};
ghost use Rattle.sym_expr.specs.Layouts.{address_of};
ghost use Rattle.sym_expr.specs.Placing.{new_size, stretch_size};
ghost use Rattle.link_image.specs.Answers.{Tells};
ghost use Rattle.link_image.specs.Ready.{IsGood, IsReady};

use crate::linker::Linker;
use gr_base::End;
use layout_plan::{new_size, placed_at};
use std::alloc::{AllocError, Global};
use sym_expr::{LinkFault, Piece, Stretch};

fn push_zeros(out: &mut Vec<u8>, count: u64) -> Result<(), AllocError>
    ensures { OnOk result (out.new.items ≡ out.old.items ++ replicate count 0) }
{
    for _ in 0..count {
        out.push(0)?;
    }
    Ok(())
}

impl Linker<'_> {
    fn push_piece(
        &self,
        alloc: Global,
        out: &mut Vec<u8>,
        stretch: &Stretch,
        start: u64,
        at: u64,
        piece: &Piece,
    ) -> Result<(), End<LinkFault>>
        requires ready { IsReady self.now }
        requires start { start ≡ address_of self.now.layout.now stretch.now.id }
        requires fits { start + at + new_size piece.now < 2 ^ 63 }
        requires piece { IsGood self.now.program.now piece.now }
        ensures fault { Tells result (first_fault (piece_faults self.now.layout.now self.now.program.now stretch.now at piece.now)) }
        ensures bytes { OnOk result (out.new.items ≡ out.old.items ++ piece_bytes self.now.layout.now self.now.program.now (start + at) piece.now) }
    {
        match piece {
            Piece::Code(block) => self.push_code(alloc, out, stretch, start, at, block),
            Piece::Data(block) => {
                let bytes = self.data_bytes(alloc, stretch, at, block)?;
                out.extend_from_slice(&bytes)?;
                Ok(())
            }
            Piece::Gap(bytes) => {
                out.extend_from_slice(bytes.as_slice())?;
                Ok(())
            }
        }
    }

    /// The bytes of an interval that lies at a start.
    pub fn stretch_bytes(
        &self,
        alloc: Global,
        stretch: &Stretch,
        start: u64,
    ) -> Result<Vec<u8>, End<LinkFault>>
        requires ready { IsReady self.now }
        requires start { start ≡ address_of self.now.layout.now stretch.now.id }
        requires fits { start + stretch_size stretch.now ≤ 2 ^ 47 }
        requires pieces { AllByRecursion (IsGood self.now.program.now) stretch.now.pieces }
        ensures fault { Tells result (first_fault (stretch_faults self.now.layout.now self.now.program.now stretch.now)) }
        ensures bytes { IfOk result (λ bytes. bytes.items ≡ stretch_bytes self.now.layout.now self.now.program.now stretch.now) }
    {
        let mut out = Vec::new(alloc);
        let mut end = 0;
        for piece in stretch.pieces.as_slice() {
            let at = placed_at(end, piece);
            push_zeros(&mut out, at - end)?;
            self.push_piece(alloc, &mut out, stretch, start, at, piece)?;
            end = at + new_size(piece);
        }
        Ok(out)
    }
}
