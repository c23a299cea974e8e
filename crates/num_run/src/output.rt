//! What a run writes.

ghost use Rattle.std.specs.Prelude.{◌≡◌, ◌≤◌, ◌+◌, ◌^◌, ◌↔◌, ◌++◌, [], vec_len, vec_capacity, IsTrue, IfOk};
ghost use Rattle.paged_memory.specs.Mapping.{bytes_from, is_mapped};
ghost use Rattle.paged_memory.specs.Mapped.{IsMemory, mapped};

use paged_memory::Memory;
use std::alloc::{AllocError, Global};

/// The most bytes of output, 2 ^ 24.
const MOST_OUTPUT: u64 = 16_777_216;

/// The bytes that were written, and room for all that a run may write.
#[derive(Drop)]
pub struct Output {
    pub bytes: Vec<u8>,
    ghost room: { 2 ^ 24 ≤ vec_capacity bytes },
}

impl Output {
    /// No bytes. Room that is never written costs no time.
    pub fn new(alloc: Global) -> Result<Output, AllocError>
        ensures { IfOk result (λ output. output.bytes.items ≡ []) }
    {
        Ok(Output {
            bytes: Vec::with_capacity(alloc, MOST_OUTPUT as usize)?,
        })
    }

    /// Whether so many bytes more may be written.
    pub fn has_room(&self, count: u64) -> bool
        ensures { IsTrue result ↔ vec_len self.now.bytes + count ≤ 2 ^ 24 }
    {
        let written = self.bytes.len() as u64;
        written <= MOST_OUTPUT && count <= MOST_OUTPUT - written
    }

    /// Writes so many mapped bytes from an address on.
    pub fn write(&mut self, memory: &Memory, at: u64, count: u64)
        requires memory { IsMemory memory.now }
        requires mapped { IsTrue (is_mapped (mapped memory.now) at count) }
        requires fits { at + count ≤ 2 ^ 64 }
        requires room { vec_len self.old.bytes + count ≤ 2 ^ 24 }
        ensures { self.new.bytes.items ≡ self.old.bytes.items ++ bytes_from (mapped memory.now) at count }
    {
        memory.append_to(&mut self.bytes, at, count);
    }
}
