//! Bytes by address: all in one list, found by the pages that they touch.

ghost use Rattle.std.specs.Prelude.{◌≡◌, ◌≤◌, ◌<◌, ◌+◌, ◌^◌, [], ◌∷◌, length, vec_len, take, drop, IsTrue, MatchOption, None, IfOk, OnOk, IfSome, ℕ, All, AllPairs, ◌*◌};
ghost use Rattle.std.specs.List.Sorted.{IsPartitionPoint};
ghost use Rattle.bare_image.specs.declared.image.Segment.{Segment};
ghost use Rattle.paged_memory.specs.Mapping.{byte_in, with_bytes, bytes_from, number_of};
ghost use Rattle.bare_image.specs.Valid as valid;
ghost use Rattle.paged_memory.specs.Mapped.{place_of, end_of, Has, EndBy, IsPages, IsPart, paged, with_part, beside};

use crate::part::Part;
use bare_image::Segment;
use std::alloc::{AllocError, Global};

/// The addresses of a page.
pub const PAGE: u64 = 4096;

/// All mapped bytes, and an index of the pages that they touch.
#[derive(Drop)]
pub struct Pages {
    pub bytes: Vec<u8>,
    /// These ascend, by address and by place.
    pub parts: Vec<Part>,
}

/// How many parts begin at an address or below it.
fn begun(parts: &[Part], at: u64) -> usize
    requires { AllPairs (λ part later. end_of part ≤ later.at) parts.now }
    ensures bound { result ≤ length parts.now }
    ensures point { IsPartitionPoint (λ part. part.at ≤ at) (λ part. at < part.at) parts.now result }
{
    parts.partition_point(|part| part.at <= at)
}

impl Pages {
    /// No bytes.
    pub fn new(alloc: Global) -> Pages
        ensures pages { IsPages result }
        ensures none { paged result ≡ λ _. None }
        ensures end { EndBy 0 result }
    {
        Pages {
            bytes: Vec::new(alloc),
            parts: Vec::new(alloc),
        }
    }

    /// Bytes behind all others.
    pub fn add(&mut self, at: u64, bytes: &[u8]) -> Result<(), AllocError>
        requires pages { IsPages self.old }
        requires end { EndBy at self.old }
        requires high { at + length bytes.now < 2 ^ 64 }
        ensures pages { OnOk result (IsPages self.new) }
        ensures end { OnOk result (EndBy (at + length bytes.now) self.new) }
        ensures bytes { OnOk result (paged self.new ≡ with_bytes (paged self.old) at bytes.now) }
    {
        let mut done = 0;
        while done < bytes.len() {
            let here = at + done as u64;
            let room = (PAGE - here % PAGE) as usize;
            let end = if room < bytes.len() - done {
                done + room
            } else {
                bytes.len()
            };
            self.add_part(here, &bytes[done..end])?;
            done = end;
        }
        Ok(())
    }

    /// Bytes of one page behind all others.
    fn add_part(&mut self, at: u64, bytes: &[u8]) -> Result<(), AllocError>
        requires pages { IsPages self.old }
        requires end { EndBy at self.old }
        requires high { at + length bytes.now < 2 ^ 64 }
        ensures pages { OnOk result (IsPages self.new) }
        ensures end { OnOk result (EndBy (at + length bytes.now) self.new) }
        ensures bytes { OnOk result (paged self.new ≡ with_bytes (paged self.old) at bytes.now) }
    {
        let start = self.bytes.len() as u64;
        self.bytes.extend_from_slice(bytes)?;
        self.parts.push(Part {
            at,
            count: bytes.len() as u64,
            start,
        })?;
        Ok(())
    }

    /// Segments behind all others.
    pub fn add_all(&mut self, segments: &[Segment]) -> Result<(), AllocError>
        requires pages { IsPages self.old }
        requires end { All (λ s. EndBy s.at self.old) segments.now }
        requires apart { AllPairs (λ s later. valid.end_of s ≤ later.at) segments.now }
        requires high { All (λ s. valid.end_of s < 2 ^ 64) segments.now }
        ensures pages { OnOk result (IsPages self.new) }
        ensures end { OnOk result ((limit : ℕ) → EndBy limit self.old → All (λ s. valid.end_of s ≤ limit) segments.now → EndBy limit self.new) }
        ensures bytes { OnOk result (paged self.new ≡ beside (byte_in segments.now) (paged self.old)) }
    {
        for segment in segments {
            self.add(segment.at, segment.bytes.as_slice())?;
        }
        Ok(())
    }

    /// The part that has an address.
    pub fn find(&self, at: u64) -> Option<Part>
        requires { IsPages self.now }
        ensures { MatchOption result (place_of self.now.parts.items at ≡ None) (λ part. IsPart self.now part × Has at part) }
    {
        let begun = begun(&self.parts, at);
        if begun == 0 {
            return None;
        }
        let part = self.parts[begun - 1];
        if part.has(at) { Some(part) } else { None }
    }

    /// The mapped bytes of one page from an address on, at most so many.
    pub fn run(&self, at: u64, most: u64) -> Option<Part>
        requires pages { IsPages self.now }
        requires some { 0 < most }
        ensures part { MatchOption result (place_of self.now.parts.items at ≡ None) (IsPart self.now) }
        ensures at { IfSome result (λ part. part.at ≡ at) }
        ensures some { IfSome result (λ part. 0 < part.count) }
        ensures most { IfSome result (λ part. part.count ≤ most) }
    {
        let part = self.find(at)?;
        let offset = at - part.at;
        Some(Part {
            at,
            count: most.min(part.count - offset),
            start: part.start + offset,
        })
    }

    /// The byte at an address.
    pub fn byte(&self, at: u64) -> Option<u8>
        requires { IsPages self.now }
        ensures { result ≡ paged self.now at }
    {
        let part = self.find(at)?;
        Some(self.bytes[(part.start + (at - part.at)) as usize])
    }

    /// The bytes of a part.
    pub fn slice(&self, part: &Part) -> &[u8]
        requires { IsPart self.now part.now }
        ensures { result.now ≡ bytes_from (paged self.now) part.now.at part.now.count }
    {
        let start = part.start as usize;
        &self.bytes[start..start + part.count as usize]
    }

    /// The number of 1, 2, 4 or 8 bytes from a place on, as `size` counts.
    #[inline(always)]
    pub fn number(&self, place: u64, size: u8) -> u64
        requires size { size < 4 }
        requires within { place + 2 ^ size ≤ vec_len self.now.bytes }
        ensures number { result ≡ number_of (take (2 ^ size) (drop place self.now.bytes.items)) }
        ensures most { result < 2 ^ (8 * 2 ^ size) }
    {
        let bytes = &self.bytes[place as usize..];
        match size {
            0 => u64::from(bytes[0]),
            1 => u64::from(u16::from_le_bytes(*bytes.first_chunk::<2>().unwrap())),
            2 => u64::from(u32::from_le_bytes(*bytes.first_chunk::<4>().unwrap())),
            _ => u64::from_le_bytes(*bytes.first_chunk::<8>().unwrap()),
        }
    }

    /// Puts bytes at a place and behind it.
    #[inline(always)]
    pub fn put(&mut self, place: u64, bytes: &[u8])
        requires { place + length bytes.now ≤ vec_len self.old.bytes }
        ensures bytes { self.new.bytes.items ≡ with_part self.old.bytes.items place bytes.now }
        ensures len { length self.new.bytes.items ≡ length self.old.bytes.items }
        ensures parts { self.new.parts ≡ self.old.parts }
    {
        let place = place as usize;
        self.bytes[place..place + bytes.len()].copy_from_slice(bytes);
    }
}
