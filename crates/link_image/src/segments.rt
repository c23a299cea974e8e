//! The segments of an image, by their addresses.

ghost use Rattle.std.specs.Prelude.{◌≡◌, ◌≤◌, ◌+◌, ◌^◌, ◌++◌, [], ◌∷◌, All, map, filter, IfOk, OnOk};
ghost use Rattle.std.specs.List.{AllByRecursion, flat_map};
ghost use Rattle.std.specs.List.Sorted.{IsPermutation};
ghost use Rattle.bare_image.specs.Valid.{AreBytes};
ghost use Rattle.sym_expr.specs.Images.{by_address, first_fault, is_some_bytes, segment_of, stretch_faults};
ghost use Rattle.sym_expr.specs.Layouts.{address_of};
ghost use Rattle.sym_expr.specs.Placing.{stretch_size};
ghost use Rattle.link_image.specs.Answers.{Tells};
ghost use Rattle.link_image.specs.Ready.{HasBytes, IsGood, IsReady};

use crate::linker::Linker;
use bare_image::Segment;
use gr_base::{Bytes, End};
use std::alloc::{AllocError, Global};
use sym_expr::{LinkFault, Stretch};

fn segment(at: u64, bytes: Vec<u8>) -> Segment
    ensures same { result ≡ record { at = at; bytes = bytes.items } }
    ensures small { AreBytes result.bytes }
{
    Segment {
        at,
        bytes: Bytes::from_vec(bytes),
    }
}

fn sort_by_address(segments: &mut Vec<Segment>) -> Result<(), AllocError>
    ensures sorted { OnOk result (segments.new.items ≡ by_address segments.old.items) }
    ensures same { OnOk result (IsPermutation segments.old.items segments.new.items) }
{
    segments.sort_by_key(|segment| segment.at)?;
    Ok(())
}

impl Linker<'_> {
    /// Adds the segment of an interval, if it has a byte.
    fn push_segment(
        &self,
        alloc: Global,
        segments: &mut Vec<Segment>,
        stretch: &Stretch,
    ) -> Result<(), End<LinkFault>>
        requires ready { IsReady self.now }
        requires fits { address_of self.now.layout.now stretch.now.id + stretch_size stretch.now ≤ 2 ^ 47 }
        requires pieces { AllByRecursion (IsGood self.now.program.now) stretch.now.pieces }
        ensures fault { Tells result (first_fault (stretch_faults self.now.layout.now self.now.program.now stretch.now)) }
        ensures segments { OnOk result (segments.new.items ≡ segments.old.items ++ map (segment_of self.now.layout.now self.now.program.now) (filter is_some_bytes (stretch.now ∷ []))) }
        ensures small { OnOk result (All HasBytes segments.old.items → All HasBytes segments.new.items) }
    {
        let start = self.interval_address(&stretch.id);
        let bytes = self.stretch_bytes(alloc, stretch, start)?;
        if bytes.is_empty() {
            return Ok(());
        }
        segments.push(segment(start, bytes))?;
        Ok(())
    }

    /// The segments of all intervals that have a byte.
    pub fn segments(&self, alloc: Global) -> Result<Vec<Segment>, End<LinkFault>>
        requires { IsReady self.now }
        ensures fault { Tells result (first_fault (flat_map (stretch_faults self.now.layout.now self.now.program.now) self.now.program.now.stretches)) }
        ensures segments { IfOk result (λ segments. segments.items ≡ by_address (map (segment_of self.now.layout.now self.now.program.now) (filter is_some_bytes self.now.program.now.stretches))) }
        ensures small { IfOk result (λ segments. All HasBytes segments.items) }
    {
        let mut segments = Vec::new(alloc);
        for stretch in self.program.stretches.as_slice() {
            self.push_segment(alloc, &mut segments, stretch)?;
        }
        sort_by_address(&mut segments)?;
        Ok(segments)
    }
}
