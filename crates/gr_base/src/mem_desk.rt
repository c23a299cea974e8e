ghost use Rattle.std.specs.Prelude.{◌<◌};

use crate::counts::Counts;
use crate::desk::{Desk, DeskFault};
use crate::store::Store;
use std::alloc::{AllocError, Global};

/// A desk in memory for tests: it handles few bytes at a time, and refuses the calls it is told to.
///
/// Calls of the three kinds are counted together from 1, up to the last value.
#[derive(Drop)]
pub struct MemDesk {
    store: Store,
    counts: Counts,
    grain: usize,
    fails: Vec<u64>,
    calls: u64,
    ghost some_at_a_time: { 0 < grain },
}

impl MemDesk {
    ghost use Rattle.std.specs.Prelude.{◌≡◌, IfOk, OnOk, OnErr, length};
    ghost use Rattle.std.specs.Option.{option_copied};
    ghost use Rattle.gr_base.specs.Desk.{Leaves, SameFiles};
    ghost use Rattle.gr_base.specs.MemDesk.{mem_files, refuses_next, IsNewMemDesk, CountsCall, KeepsCalls};

    /// A desk with no files, which handles at most `grain` bytes in a call and refuses the calls of
    /// the numbers in `fails`.
    pub fn new(alloc: Global, grain: usize, fails: &[u64]) -> Result<MemDesk, AllocError>
        requires { 0 < grain }
        ensures { IfOk result (IsNewMemDesk grain fails.now) }
    {
        let fails = Vec::from_slice(alloc, fails)?;
        Ok(MemDesk {
            store: Store::new(alloc),
            counts: Counts::new(),
            grain,
            fails,
            calls: 0,
        })
    }

    /// Puts bytes in the place of what the name holds, if anything. It counts as no call.
    pub fn put(&mut self, name: &str, bytes: &[u8]) -> Result<(), AllocError>
        ensures ok { OnOk result (Leaves name.now bytes.now (mem_files self.old) (mem_files self.new)) }
        ensures err { OnErr result (SameFiles (mem_files self.old) (mem_files self.new)) }
        ensures calls { KeepsCalls self.old self.new }
    {
        self.store.put(name, bytes)
    }

    /// What the name holds.
    pub fn get(&self, name: &str) -> Option<&[u8]>
        ensures { option_copied result ≡ mem_files self.now name.now }
    {
        self.store.get(name)
    }

    // Counts a call, and answers whether it is one of those that fail.
    fn is_refused(&mut self) -> bool
        ensures refused { result ≡ refuses_next self.old }
        ensures calls { CountsCall self.old self.new }
        ensures store { self.new.store ≡ self.old.store }
        ensures counts { self.new.counts ≡ self.old.counts }
    {
        self.calls = self.calls.saturating_add(1);
        self.fails.contains(&self.calls)
    }
}

impl Desk for MemDesk {
    ghost use Rattle.std.specs.Prelude.{◌≡◌, ◌↔◌, ◌≤◌, ◌<◌, [], Some, Err, false, min, length, take, IfOk, OnOk, OnErr, IsTrue};
    ghost use Rattle.std.specs.Result.{result_unwrap_or};
    ghost use Rattle.std.proofs.Common.{arith};
    ghost use Rattle.gr_base.specs.declared.desk.DeskFault.TheVariants.{Failed};
    ghost use Rattle.gr_base.specs.Desk.{counted, SameFiles, Leaves, LeavesPrefix, Adds, Fetches, HasCause, after_call};
    ghost use Rattle.gr_base.specs.MemDesk.{mem_files, mem_made, mem_read_faults, mem_write_faults, mem_taken, mem_grain, fetched, refuses_next, CountsCall};

    ghost files = { λ desk. Some (mem_files desk) };

    ghost read_faults = { mem_read_faults };

    ghost write_faults = { mem_write_faults };

    ghost made = { mem_made };

    ghost steady = { λ _. false };

    ghost taken = { mem_taken };

    ghost made_is_held = { λ desk. desk.store.made_is_held };

    ghost steady_tells = { λ desk steady. Prim.cc };

    ghost taken_fits = { λ desk. Prim.omega arith };

    fn fetch(&mut self, name: &str, at: u64, buf: &mut [u8]) -> Result<usize, DeskFault>
        requires { 0 < length buf.old }
        ensures exact { result ≡ fetched self.old name.now at (length buf.old) }
        ensures calls { CountsCall self.old self.new }
        ensures content { IfOk result (λ n. Fetches name.now at buf.new n (mem_files self.old)) }
        ensures files { SameFiles (mem_files self.old) (mem_files self.new) }
        ensures taken { mem_taken self.new ≡ counted (mem_taken self.old) (result_unwrap_or result 0) }
        ensures made { mem_made self.new ≡ mem_made self.old }
        ensures read_cause { HasCause (mem_read_faults self.old) (mem_read_faults self.new) result }
        ensures read_faults { mem_read_faults self.new ≡ after_call (mem_read_faults self.old) result }
        ensures write_faults { mem_write_faults self.new ≡ mem_write_faults self.old }
    {
        if self.is_refused() {
            self.counts.refuse_read();
            return Err(DeskFault::Failed);
        }
        match self.store.fetch(name, at, self.grain, buf) {
            Some(count) => {
                self.counts.take(count);
                Ok(count)
            }
            None => {
                self.counts.refuse_read();
                Err(DeskFault::Failed)
            }
        }
    }

    fn create(&mut self, name: &str) -> Result<(), DeskFault>
        ensures refused { IsTrue (refuses_next self.old) ↔ (result ≡ Err Failed) }
        ensures calls { CountsCall self.old self.new }
        ensures empty { OnOk result (Leaves name.now [] (mem_files self.old) (mem_files self.new)) }
        ensures made { OnOk result (mem_made self.new ≡ Some name.now) }
        ensures err { OnErr result (SameFiles (mem_files self.old) (mem_files self.new)) }
        ensures same_made { OnErr result (mem_made self.new ≡ mem_made self.old) }
        ensures taken { mem_taken self.new ≡ mem_taken self.old }
        ensures write_cause { HasCause (mem_write_faults self.old) (mem_write_faults self.new) result }
        ensures read_faults { mem_read_faults self.new ≡ mem_read_faults self.old }
        ensures write_faults { mem_write_faults self.new ≡ after_call (mem_write_faults self.old) result }
    {
        if self.is_refused() {
            self.counts.refuse_write();
            return Err(DeskFault::Failed);
        }
        self.store.create(name)?;
        Ok(())
    }

    fn append(&mut self, name: &str, piece: &[u8]) -> Result<usize, DeskFault>
        requires piece { 0 < length piece.now }
        requires made { mem_made self.old ≡ Some name.now }
        ensures refused { IsTrue (refuses_next self.old) ↔ (result ≡ Err Failed) }
        ensures calls { CountsCall self.old self.new }
        ensures count { IfOk result (λ n. n ≡ min (length piece.now) (mem_grain self.old)) }
        ensures some { IfOk result (λ n. 0 < n) }
        ensures adds { IfOk result (λ n. Adds name.now (take n piece.now) (mem_files self.old) (mem_files self.new)) }
        ensures err { OnErr result (SameFiles (mem_files self.old) (mem_files self.new)) }
        ensures prefix { OnErr result (LeavesPrefix name.now piece.now (mem_files self.old) (mem_files self.new)) }
        ensures made { mem_made self.new ≡ mem_made self.old }
        ensures taken { mem_taken self.new ≡ mem_taken self.old }
        ensures write_cause { HasCause (mem_write_faults self.old) (mem_write_faults self.new) result }
        ensures read_faults { mem_read_faults self.new ≡ mem_read_faults self.old }
        ensures write_faults { mem_write_faults self.new ≡ after_call (mem_write_faults self.old) result }
    {
        if self.is_refused() {
            self.counts.refuse_write();
            return Err(DeskFault::Failed);
        }
        let count = piece.len().min(self.grain);
        self.store.append(name, &piece[..count])?;
        Ok(count)
    }
}
