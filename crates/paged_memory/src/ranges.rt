//! Bytes of any addresses, wherever they stand.

ghost use Rattle.std.specs.Prelude.{◌≡◌, ◌≤◌, ◌<◌, ◌+◌, ◌-◌, ◌^◌, ◌++◌, length, vec_len, vec_capacity, replicate, IsTrue};
ghost use Rattle.paged_memory.specs.Mapping.{with_bytes, bytes_from, is_mapped, number_at, word_at};
ghost use Rattle.paged_memory.specs.Mapped.{IsPages, paged};

use crate::pages::Pages;

/// How many bytes `size` counts.
#[inline(always)]
pub fn byte_count(size: u8) -> u64
    requires { size < 4 }
    ensures count { result ≡ 2 ^ size }
    ensures most { result ≤ 8 }
{
    match size {
        0 => 1,
        1 => 2,
        2 => 4,
        _ => 8,
    }
}

impl Pages {
    /// Whether each of so many bytes from an address on is mapped.
    pub fn is_mapped(&self, at: u64, count: u64) -> bool
        requires { IsPages self.now }
        ensures mapped { result ≡ is_mapped (paged self.now) at count }
        ensures fits { IsTrue result → at + count ≤ 2 ^ 64 }
    {
        let mut done = 0;
        while done < count {
            let Some(here) = at.checked_add(done) else {
                return false;
            };
            let Some(part) = self.run(here, count - done) else {
                return false;
            };
            done += part.count;
        }
        true
    }

    /// Adds so many mapped bytes from an address on to a list that has room for them.
    pub fn append_to(&self, out: &mut Vec<u8>, at: u64, count: u64)
        requires pages { IsPages self.now }
        requires mapped { IsTrue (is_mapped (paged self.now) at count) }
        requires fits { at + count ≤ 2 ^ 64 }
        requires room { vec_len out.old + count ≤ vec_capacity out.old }
        ensures out { out.new.items ≡ out.old.items ++ bytes_from (paged self.now) at count }
        ensures room { vec_capacity out.old ≤ vec_capacity out.new }
    {
        let mut done = 0;
        while done < count {
            let Some(part) = self.run(at + done, count - done) else {
                unreachable!();
            };
            out.extend_from_slice(self.slice(&part)).unwrap();
            done += part.count;
        }
    }

    /// Puts bytes at mapped addresses from one on.
    pub fn put_all(&mut self, at: u64, bytes: &[u8])
        requires pages { IsPages self.old }
        requires mapped { IsTrue (is_mapped (paged self.old) at (length bytes.now)) }
        requires fits { at + length bytes.now ≤ 2 ^ 64 }
        ensures bytes { paged self.new ≡ with_bytes (paged self.old) at bytes.now }
        ensures len { length self.new.bytes.items ≡ length self.old.bytes.items }
        ensures parts { self.new.parts ≡ self.old.parts }
    {
        let mut done = 0;
        while done < bytes.len() {
            let Some(part) = self.run(at + done as u64, (bytes.len() - done) as u64) else {
                unreachable!();
            };
            let end = done + part.count as usize;
            self.put(part.start, &bytes[done..end]);
            done = end;
        }
    }

    /// The number of 1, 2, 4 or 8 bytes at an address, as `size` counts, where they are all mapped.
    pub fn number_at(&self, at: u64, size: u8) -> Option<u64>
        requires pages { IsPages self.now }
        requires size { size < 4 }
        ensures { result ≡ number_at (paged self.now) at (2 ^ size) }
    {
        let count = byte_count(size);
        if !self.is_mapped(at, count) {
            return None;
        }
        let bytes = self.eight_bytes(at, count);
        Some(u64::from_le_bytes(bytes))
    }

    /// The number of the four bytes of a word, where they are all mapped.
    pub fn word_at(&self, at: u64) -> Option<u32>
        requires { IsPages self.now }
        ensures { result ≡ word_at (paged self.now) at }
    {
        if !self.is_mapped(at, 4) {
            return None;
        }
        let [a, b, c, d, ..] = self.eight_bytes(at, 4);
        Some(u32::from_le_bytes([a, b, c, d]))
    }

    /// So many mapped bytes from an address on, and zeros.
    fn eight_bytes(&self, at: u64, count: u64) -> [u8; 8]
        requires pages { IsPages self.now }
        requires count { count ≤ 8 }
        requires fits { at + count ≤ 2 ^ 64 }
        ensures { result ≡ bytes_from (paged self.now) at count ++ replicate (8 - count) 0 }
    {
        let mut bytes = [0; 8];
        for i in 0..count {
            bytes[i as usize] = self.byte(at + i).unwrap_or(0);
        }
        bytes
    }
}
