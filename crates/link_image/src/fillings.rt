//! The bytes of data with what stands in them for expressions.

ghost use Rattle.std.specs.Prelude.{◌≡◌, ◌<◌, ◌≤◌, ◌+◌, ◌^◌, length, IfNone, IfOk};
ghost use Rattle.std.specs.List.{filter_map};
ghost use Rattle.sym_expr.specs.Images.{bytes_of, filling_fault, filling_size, filling_value, first_fault, fit_or, overlaid, with_fillings};
ghost use Rattle.sym_expr.specs.WellMade.{IsData, IsFilling};
ghost use Rattle.link_image.specs.Answers.{Tells};
ghost use Rattle.link_image.specs.Ready.{IsReady};

use crate::linker::Linker;
use gr_base::End;
use std::alloc::Global;
use sym_expr::{DataBlock, Filling, LinkFault, Stretch};

fn filling_size(filling: &Filling) -> usize
    ensures { result ≡ filling_size filling.now }
{
    match filling {
        Filling::Pointer(_) => 8,
        Filling::Difference(size, _, _) | Filling::Entry(size, _, _, _) => *size as usize,
    }
}

/// Writes the low bytes of a number over those from a place on.
fn overlay(bytes: &mut [u8], at: usize, size: usize, n: u64)
    requires size { size ≤ 8 }
    requires inside { at + size ≤ length bytes.old }
    ensures { bytes.new ≡ overlaid at (bytes_of size n) bytes.old }
{
    bytes[at..at + size].copy_from_slice(&n.to_le_bytes()[..size]);
}

impl Linker<'_> {
    /// Writes a filling over the bytes of its block, unless it has a fault.
    fn overlay_filling(
        &self,
        bytes: &mut [u8],
        stretch: &Stretch,
        at: u64,
        offset: u64,
        filling: &Filling,
    ) -> Option<LinkFault>
        requires ready { IsReady self.now }
        requires fits { at + offset < 2 ^ 64 }
        requires filling { IsFilling self.now.program.now filling.now }
        requires inside { offset + filling_size filling.now ≤ length bytes.old }
        ensures fault { result ≡ filling_fault self.now.layout.now self.now.program.now stretch.now at (offset, filling.now) }
        ensures bytes { IfNone result (bytes.new ≡ overlaid offset (bytes_of (filling_size filling.now) (fit_or 0 (filling_value self.now.layout.now self.now.program.now filling.now))) bytes.old) }
    {
        match self.checked_filling(stretch, at, offset, filling) {
            Ok(value) => {
                overlay(bytes, offset as usize, filling_size(filling), value);
                None
            }
            Err(fault) => Some(fault),
        }
    }

    /// The bytes of a data block that stands at an offset of an interval. Where two fillings share a
    /// byte the first counts, so that they are written from the last on.
    pub fn data_bytes(
        &self,
        alloc: Global,
        stretch: &Stretch,
        at: u64,
        block: &DataBlock,
    ) -> Result<Vec<u8>, End<LinkFault>>
        requires ready { IsReady self.now }
        requires fits { at + length block.now.bytes < 2 ^ 63 }
        requires data { IsData self.now.program.now block.now }
        ensures fault { Tells result (first_fault (filter_map (filling_fault self.now.layout.now self.now.program.now stretch.now at) block.now.fillings)) }
        ensures bytes { IfOk result (λ bytes. bytes.items ≡ with_fillings self.now.layout.now self.now.program.now block.now.fillings block.now.bytes) }
    {
        let mut bytes = Vec::from_slice(alloc, block.bytes.as_slice())?;
        let fillings = block.fillings.as_slice();
        let mut first = None;
        let mut left = fillings.len();
        while left > 0 {
            left -= 1;
            let (offset, filling) = &fillings[left];
            first = self
                .overlay_filling(&mut bytes, stretch, at, *offset, filling)
                .or(first);
        }
        match first {
            Some(fault) => Err(End::Fault(fault)),
            None => Ok(bytes),
        }
    }
}
