//! What a run writes.

ghost use Rattle.std.specs.Prelude.{◌≡◌, ◌≤◌, ◌+◌, ◌^◌, ◌↔◌, ◌++◌, [], length, take, vec_len, vec_capacity, IsTrue, IfOk};

use std::alloc::{AllocError, Global};

/// The most bytes of output, 2 ^ 24.
const MOST_OUTPUT: u64 = 16_777_216;

/// The bytes that were written, and room for all that a run may write.
#[derive(Drop)]
pub struct Output {
    pub bytes: Vec<u8>,
    ghost room: { 2 ^ 24 ≤ vec_capacity bytes },
}

impl Output {
    /// No bytes. Room that is never written costs no time.
    pub fn new(alloc: Global) -> Result<Output, AllocError>
        ensures { IfOk result (λ output. output.bytes.items ≡ []) }
    {
        Ok(Output {
            bytes: Vec::with_capacity(alloc, MOST_OUTPUT as usize)?,
        })
    }

    /// Whether so many bytes more may be written.
    pub fn has_room(&self, count: u64) -> bool
        ensures { IsTrue result ↔ length self.now.bytes.items + count ≤ 2 ^ 24 }
    {
        let written = self.bytes.as_slice().len() as u64;
        written <= MOST_OUTPUT && count <= MOST_OUTPUT - written
    }

    /// Writes bytes.
    pub fn write(&mut self, bytes: &[u8])
        requires { length self.old.bytes.items + length bytes.now ≤ 2 ^ 24 }
        ensures { self.new.bytes.items ≡ self.old.bytes.items ++ bytes.now }
    {
        let _ = self.bytes.extend_from_slice(bytes);
    }

    /// Takes back all but so many bytes.
    pub fn take_back(&mut self, count: usize)
        ensures { self.new.bytes.items ≡ take count self.old.bytes.items }
    {
        self.bytes.truncate(count);
    }
}
