use crate::counts::Counts;
use crate::desk::{Desk, DeskFault};
use crate::store::Store;
use std::alloc::{AllocError, Global};

/// A desk in memory that refuses nothing but a fetch of a name that it doesn't hold.
#[derive(Drop)]
pub struct HonestDesk {
    store: Store,
    counts: Counts,
}

impl HonestDesk {
    ghost use Rattle.std.specs.Prelude.{◌≡◌, IsOkAnd, OnOk, OnErr};
    ghost use Rattle.std.specs.Option.{option_copied};
    ghost use Rattle.gr_base.specs.Desk.{Leaves, SameFiles};
    ghost use Rattle.gr_base.specs.HonestDesk.{honest_files, IsNewHonestDesk, KeepsCounts};

    /// A desk with no files. It takes no memory, and answers no error.
    pub fn new(alloc: Global) -> Result<HonestDesk, AllocError>
        ensures { IsOkAnd result IsNewHonestDesk }
    {
        Ok(HonestDesk {
            store: Store::new(alloc),
            counts: Counts::new(),
        })
    }

    /// Puts bytes in the place of what the name holds, if anything. It counts as no call.
    pub fn put(&mut self, name: &str, bytes: &[u8]) -> Result<(), AllocError>
        ensures ok { OnOk result (Leaves name.now bytes.now (honest_files self.old) (honest_files self.new)) }
        ensures err { OnErr result (SameFiles (honest_files self.old) (honest_files self.new)) }
        ensures counts { KeepsCounts self.old self.new }
    {
        self.store.put(name, bytes)
    }

    /// What the name holds.
    pub fn get(&self, name: &str) -> Option<&[u8]>
        ensures { option_copied result ≡ honest_files self.now name.now }
    {
        self.store.get(name)
    }
}

impl Desk for HonestDesk {
    ghost use Rattle.std.specs.Prelude.{◌≡◌, ◌≤◌, ◌<◌, [], Some, Err, true, length, IfOk, OnOk, OnErr};
    ghost use Rattle.std.specs.Result.{result_unwrap_or};
    ghost use Rattle.std.proofs.Common.{refl, arith};
    ghost use Rattle.gr_base.specs.declared.desk.DeskFault.TheVariants.{Memory};
    ghost use Rattle.gr_base.specs.Desk.{counted, SameFiles, Leaves, LeavesPrefix, Adds, Fetches, HasCause, after_call};
    ghost use Rattle.gr_base.specs.Held.{read_of};
    ghost use Rattle.gr_base.specs.HonestDesk.{honest_files, honest_made, honest_read_faults, honest_write_faults, honest_taken};

    ghost files = { λ desk. Some (honest_files desk) };

    ghost read_faults = { honest_read_faults };

    ghost write_faults = { honest_write_faults };

    ghost made = { honest_made };

    ghost steady = { λ _. true };

    ghost taken = { honest_taken };

    ghost made_is_held = { λ desk. desk.store.made_is_held };

    ghost steady_tells = { λ desk steady. refl };

    ghost taken_fits = { λ desk. Prim.omega arith };

    fn fetch(&mut self, name: &str, at: u64, buf: &mut [u8]) -> Result<usize, DeskFault>
        requires { 0 < length buf.old }
        ensures exact { result ≡ read_of (honest_files self.old name.now) at (length buf.old) (length buf.old) }
        ensures content { IfOk result (λ n. Fetches name.now at buf.new n (honest_files self.old)) }
        ensures files { SameFiles (honest_files self.old) (honest_files self.new) }
        ensures taken { honest_taken self.new ≡ counted (honest_taken self.old) (result_unwrap_or result 0) }
        ensures made { honest_made self.new ≡ honest_made self.old }
        ensures read_cause { HasCause (honest_read_faults self.old) (honest_read_faults self.new) result }
        ensures read_faults { honest_read_faults self.new ≡ after_call (honest_read_faults self.old) result }
        ensures write_faults { honest_write_faults self.new ≡ honest_write_faults self.old }
    {
        match self.store.fetch(name, at, buf.len(), buf) {
            Some(count) => {
                self.counts.take(count);
                Ok(count)
            }
            None => {
                self.counts.refuse_read();
                Err(DeskFault::Failed)
            }
        }
    }

    fn create(&mut self, name: &str) -> Result<(), DeskFault>
        ensures empty { OnOk result (Leaves name.now [] (honest_files self.old) (honest_files self.new)) }
        ensures made { OnOk result (honest_made self.new ≡ Some name.now) }
        ensures err { OnErr result (SameFiles (honest_files self.old) (honest_files self.new)) }
        ensures same_made { OnErr result (honest_made self.new ≡ honest_made self.old) }
        ensures memory { OnErr result (result ≡ Err Memory) }
        ensures taken { honest_taken self.new ≡ honest_taken self.old }
        ensures read_faults { honest_read_faults self.new ≡ honest_read_faults self.old }
        ensures write_faults { honest_write_faults self.new ≡ honest_write_faults self.old }
    {
        self.store.create(name)?;
        Ok(())
    }

    fn append(&mut self, name: &str, piece: &[u8]) -> Result<usize, DeskFault>
        requires piece { 0 < length piece.now }
        requires made { honest_made self.old ≡ Some name.now }
        ensures whole { IfOk result (λ n. n ≡ length piece.now) }
        ensures adds { IfOk result (λ n. Adds name.now piece.now (honest_files self.old) (honest_files self.new)) }
        ensures err { OnErr result (SameFiles (honest_files self.old) (honest_files self.new)) }
        ensures memory { OnErr result (result ≡ Err Memory) }
        ensures prefix { OnErr result (LeavesPrefix name.now piece.now (honest_files self.old) (honest_files self.new)) }
        ensures made { honest_made self.new ≡ honest_made self.old }
        ensures taken { honest_taken self.new ≡ honest_taken self.old }
        ensures read_faults { honest_read_faults self.new ≡ honest_read_faults self.old }
        ensures write_faults { honest_write_faults self.new ≡ honest_write_faults self.old }
    {
        self.store.append(name, piece)?;
        Ok(piece.len())
    }
}
