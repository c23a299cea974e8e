ghost use Rattle.std.specs.Prelude.{◌≡◌, ◌≤◌, ◌<◌, ◌+◌, ◌*◌, ◌^◌, ◌∷◌, ◌++◌, length, vec_len, vec_capacity, AllPairs, IsTrue, MatchOption, None, IfOk, if◌then◌else◌};
ghost use Rattle.std.specs.List.Sorted.{IsPartitionPoint};
ghost use Rattle.bare_image.specs.Valid.{image_ok, end_of};
ghost use Rattle.paged_memory.specs.Mapping.{byte_in, stack_of, with_bytes, bytes_from, bytes_of, is_mapped, number_at, word_at};
ghost use Rattle.paged_memory.specs.Mapped.{IsMemory, IsPages, IsPart, mapped, paged};

use crate::pages::{PAGE, Pages};
use crate::part::Part;
use crate::ranges::byte_count;
use bare_image::{Image, Segment};
use std::alloc::{AllocError, Global};

/// How many parts are remembered.
pub const RECENT: usize = 256;

/// The bytes of the stack and of the segments.
#[derive(Drop)]
pub struct Memory {
    pub pages: Pages,
    /// The part of the last instruction.
    pub code: Part,
    /// The parts of the last accesses, by the page.
    pub recent: Vec<Part>,
}

/// Where the part of an address is remembered.
#[inline(always)]
fn slot(at: u64) -> usize
    ensures { result < RECENT }
{
    (at / PAGE) as usize % RECENT
}

/// How many segments begin at an address or below it.
fn begun(segments: &[Segment], at: u64) -> usize
    requires { AllPairs (λ s later. end_of s ≤ later.at) segments.now }
    ensures bound { result ≤ length segments.now }
    ensures point { IsPartitionPoint (λ s. s.at ≤ at) (λ s. at < s.at) segments.now result }
{
    segments.partition_point(|segment| segment.at <= at)
}

/// The pages of an image: its stack, of zeros, and its segments.
fn pages_of(alloc: Global, image: &Image) -> Result<Pages, AllocError>
    requires { image_ok image.now }
    ensures pages { IfOk result IsPages }
    ensures bytes { IfOk result (λ pages. paged pages ≡ byte_in (stack_of image.now ∷ image.now.segments)) }
{
    let segments = image.segments.as_slice();
    let (below, above) = segments.split_at(begun(segments, image.stack_at));
    let zeros = vec![in alloc; 0; image.stack_size as usize]?;
    let mut pages = Pages::new(alloc);
    pages.add_all(below)?;
    pages.add(image.stack_at, &zeros)?;
    pages.add_all(above)?;
    Ok(pages)
}

impl Memory {
    /// The memory of an image: its stack, of zeros, and its segments.
    pub fn new(alloc: Global, image: &Image) -> Result<Memory, AllocError>
        requires { image_ok image.now }
        ensures memory { IfOk result IsMemory }
        ensures bytes { IfOk result (λ memory. mapped memory ≡ byte_in (stack_of image.now ∷ image.now.segments)) }
    {
        Ok(Memory {
            pages: pages_of(alloc, image)?,
            code: Part::NONE,
            recent: vec![in alloc; Part::NONE; RECENT]?,
        })
    }

    /// The part that has an address, which is remembered.
    fn look_up(&mut self, at: u64) -> Option<Part>
        requires { IsMemory self.old }
        ensures part { MatchOption result (mapped self.old at ≡ None) (IsPart self.old.pages) }
        ensures memory { IsMemory self.new }
        ensures same { self.new.pages ≡ self.old.pages }
    {
        let part = self.pages.find(at)?;
        self.recent[slot(at)] = part;
        Some(part)
    }

    /// The four bytes of an instruction as a number, the low one first, where they are all mapped.
    #[inline(always)]
    pub fn word(&mut self, at: u64) -> Option<u32>
        requires { IsMemory self.old }
        ensures word { result ≡ word_at (mapped self.old) at }
        ensures memory { IsMemory self.new }
        ensures same { mapped self.new ≡ mapped self.old }
    {
        match self.code.place(at, 4) {
            Some(place) => Some(self.pages.number(place, 2) as u32),
            None => self.word_elsewhere(at),
        }
    }

    fn word_elsewhere(&mut self, at: u64) -> Option<u32>
        requires { IsMemory self.old }
        ensures word { result ≡ word_at (mapped self.old) at }
        ensures memory { IsMemory self.new }
        ensures same { mapped self.new ≡ mapped self.old }
    {
        let part = self.look_up(at)?;
        self.code = part;
        match part.place(at, 4) {
            Some(place) => Some(self.pages.number(place, 2) as u32),
            None => self.pages.word_at(at),
        }
    }

    /// The number of 1, 2, 4 or 8 bytes at an address, as `size` counts, where they are all mapped.
    #[inline(always)]
    pub fn load(&mut self, at: u64, size: u8) -> Option<u64>
        requires memory { IsMemory self.old }
        requires size { size < 4 }
        ensures number { result ≡ number_at (mapped self.old) at (2 ^ size) }
        ensures memory { IsMemory self.new }
        ensures same { mapped self.new ≡ mapped self.old }
    {
        match self.recent[slot(at)].place(at, byte_count(size)) {
            Some(place) => Some(self.pages.number(place, size)),
            None => self.load_elsewhere(at, size),
        }
    }

    fn load_elsewhere(&mut self, at: u64, size: u8) -> Option<u64>
        requires memory { IsMemory self.old }
        requires size { size < 4 }
        ensures number { result ≡ number_at (mapped self.old) at (2 ^ size) }
        ensures memory { IsMemory self.new }
        ensures same { mapped self.new ≡ mapped self.old }
    {
        match self.look_up(at)?.place(at, byte_count(size)) {
            Some(place) => Some(self.pages.number(place, size)),
            None => self.pages.number_at(at, size),
        }
    }

    /// Puts the low 1, 2, 4 or 8 bytes of a number at an address, as `size` counts, where they are all mapped; else nothing changes.
    #[inline(always)]
    pub fn store(&mut self, at: u64, size: u8, number: u64) -> bool
        requires memory { IsMemory self.old }
        requires size { size < 4 }
        ensures mapped { result ≡ is_mapped (mapped self.old) at (2 ^ size) }
        ensures bytes { mapped self.new ≡ (if result then with_bytes (mapped self.old) at (bytes_of (2 ^ size) number) else mapped self.old) }
        ensures memory { IsMemory self.new }
    {
        let bytes = number.to_le_bytes();
        match size {
            0 => self.store_bytes(at, &bytes[..1]),
            1 => self.store_bytes(at, &bytes[..2]),
            2 => self.store_bytes(at, &bytes[..4]),
            _ => self.store_bytes(at, &bytes),
        }
    }

    #[inline(always)]
    fn store_bytes(&mut self, at: u64, bytes: &[u8]) -> bool
        requires memory { IsMemory self.old }
        requires some { 0 < length bytes.now }
        ensures mapped { result ≡ is_mapped (mapped self.old) at (length bytes.now) }
        ensures bytes { mapped self.new ≡ (if result then with_bytes (mapped self.old) at bytes.now else mapped self.old) }
        ensures memory { IsMemory self.new }
    {
        match self.recent[slot(at)].place(at, bytes.len() as u64) {
            Some(place) => {
                self.pages.put(place, bytes);
                true
            }
            None => self.store_elsewhere(at, bytes),
        }
    }

    fn store_elsewhere(&mut self, at: u64, bytes: &[u8]) -> bool
        requires memory { IsMemory self.old }
        requires some { 0 < length bytes.now }
        ensures mapped { result ≡ is_mapped (mapped self.old) at (length bytes.now) }
        ensures bytes { mapped self.new ≡ (if result then with_bytes (mapped self.old) at bytes.now else mapped self.old) }
        ensures memory { IsMemory self.new }
    {
        self.look_up(at);
        if !self.pages.is_mapped(at, bytes.len() as u64) {
            return false;
        }
        self.put(at, bytes);
        true
    }

    /// The byte at an address.
    pub fn byte(&self, at: u64) -> Option<u8>
        requires { IsMemory self.now }
        ensures { result ≡ mapped self.now at }
    {
        self.pages.byte(at)
    }

    /// Whether each of so many bytes from an address on is mapped.
    pub fn is_mapped(&self, at: u64, count: u64) -> bool
        requires { IsMemory self.now }
        ensures mapped { result ≡ is_mapped (mapped self.now) at count }
        ensures fits { IsTrue result → at + count ≤ 2 ^ 64 }
    {
        self.pages.is_mapped(at, count)
    }

    /// Adds so many mapped bytes from an address on to a list that has room for them.
    pub fn append_to(&self, out: &mut Vec<u8>, at: u64, count: u64)
        requires memory { IsMemory self.now }
        requires mapped { IsTrue (is_mapped (mapped self.now) at count) }
        requires fits { at + count ≤ 2 ^ 64 }
        requires room { vec_len out.old + count ≤ vec_capacity out.old }
        ensures out { out.new.items ≡ out.old.items ++ bytes_from (mapped self.now) at count }
        ensures room { vec_capacity out.old ≤ vec_capacity out.new }
    {
        self.pages.append_to(out, at, count);
    }

    /// Puts bytes at mapped addresses from one on.
    pub fn put(&mut self, at: u64, bytes: &[u8])
        requires memory { IsMemory self.old }
        requires mapped { IsTrue (is_mapped (mapped self.old) at (length bytes.now)) }
        requires fits { at + length bytes.now ≤ 2 ^ 64 }
        ensures memory { IsMemory self.new }
        ensures bytes { mapped self.new ≡ with_bytes (mapped self.old) at bytes.now }
    {
        self.pages.put_all(at, bytes);
    }
}
