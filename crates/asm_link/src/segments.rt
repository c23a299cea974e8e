//! The segments of an image, by their addresses.

ghost use Rattle.std.specs.Prelude.{◌≡◌, ◌≤◌, ◌+◌, ◌^◌, ◌++◌, [], ◌∷◌, All, map, filter, IfOk, OnOk};
ghost use Rattle.std.specs.List.{AllByRecursion, flat_map};
ghost use Rattle.std.specs.List.Sorted.{IsPermutation};
ghost use Rattle.asm_modules.specs.Valid.{interval_size, IsItem};
ghost use Rattle.bare_image.specs.Valid.{AreBytes};
ghost use Rattle.sym_expr.specs.Images.{by_address, first_fault};
ghost use Rattle.sym_expr.specs.Layouts.{address_of};
ghost use Rattle.asm_link.specs.Answers.{Tells};
ghost use Rattle.asm_link.specs.Linked.{interval_faults, is_some_bytes, segment_of};
ghost use Rattle.asm_link.specs.Ready.{HasBytes, IsReady};

use crate::index::Index;
use asm_modules::AsmInterval;
use bare_image::Segment;
use gr_base::{Bytes, End};
use std::alloc::{AllocError, Global};
use sym_expr::LinkFault;

fn segment(at: u64, bytes: Vec<u8>) -> Segment
    ensures same { result ≡ record { at = at; bytes = bytes.items } }
    ensures small { AreBytes result.bytes }
{
    Segment {
        at,
        bytes: Bytes::from_vec(bytes),
    }
}

fn sort_by_address(segments: &mut Vec<Segment>) -> Result<(), AllocError>
    ensures sorted { OnOk result (segments.new.items ≡ by_address segments.old.items) }
    ensures same { OnOk result (IsPermutation segments.old.items segments.new.items) }
{
    segments.sort_by_key(|segment| segment.at)?;
    Ok(())
}

impl Index<'_> {
    /// Adds the segment of an interval, if it has a byte.
    fn push_segment(
        &self,
        alloc: Global,
        segments: &mut Vec<Segment>,
        interval: &AsmInterval,
    ) -> Result<(), End<LinkFault>>
        requires ready { IsReady self.now }
        requires fits { address_of self.now.layout.now interval.now.uuid + interval_size interval.now ≤ 2 ^ 47 }
        requires items { AllByRecursion IsItem interval.now.items }
        ensures fault { Tells result (first_fault (interval_faults self.now.layout.now self.now.asm.now.labels interval.now)) }
        ensures segments { OnOk result (segments.new.items ≡ segments.old.items ++ map (segment_of self.now.layout.now self.now.asm.now.labels) (filter is_some_bytes (interval.now ∷ []))) }
        ensures small { OnOk result (All HasBytes segments.old.items → All HasBytes segments.new.items) }
    {
        let start = self.interval_address(&interval.uuid);
        let mut bytes = Vec::new(alloc);
        self.push_items(&mut bytes, interval.uuid, start, interval.items.as_slice())?;
        if bytes.is_empty() {
            return Ok(());
        }
        segments.push(segment(start, bytes))?;
        Ok(())
    }

    /// The segments of all intervals that have a byte.
    pub(crate) fn segments(&self, alloc: Global) -> Result<Vec<Segment>, End<LinkFault>>
        requires { IsReady self.now }
        ensures fault { Tells result (first_fault (flat_map (interval_faults self.now.layout.now self.now.asm.now.labels) self.now.asm.now.intervals)) }
        ensures segments { IfOk result (λ segments. segments.items ≡ by_address (map (segment_of self.now.layout.now self.now.asm.now.labels) (filter is_some_bytes self.now.asm.now.intervals))) }
        ensures small { IfOk result (λ segments. All HasBytes segments.items) }
    {
        let mut segments = Vec::new(alloc);
        for interval in self.asm.intervals.as_slice() {
            self.push_segment(alloc, &mut segments, interval)?;
        }
        sort_by_address(&mut segments)?;
        Ok(segments)
    }
}
