ghost use Rattle.std.specs.Prelude.{◌≡◌, ◌-◌, ◌^◌, ◌<◌, ◌≤◌, ℕ, List, [], Bool, Option, length, take, IsTrue, IsSome, IfOk, OnOk, OnErr, OnSome, ◌≢◌};
ghost use Rattle.std.specs.Result.{result_unwrap_or};
ghost use Rattle.gr_base.specs.declared.desk.DeskFault.TheVariants.{Failed, Memory};
ghost use Rattle.gr_base.specs.Desk.{Files, Told, ToldBoth, SameFiles, Leaves, LeavesPrefix, Adds, Fetches, HasCause, MadeIsHeld, counted};

use std::alloc::AllocError;
use std::io;

/// Why a desk refused a call.
#[derive(Clone, Copy, Debug, PartialEq, Eq)]
pub enum DeskFault {
    Failed,
    Memory,
}

impl From<AllocError> for DeskFault {
    ghost use Rattle.std.specs.Prelude.{◌≡◌};
    ghost use Rattle.gr_base.specs.declared.desk.DeskFault.TheVariants.{Memory};

    ghost from_gives = { λ _ fault. fault ≡ Memory };

    fn from(_: AllocError) -> DeskFault {
        DeskFault::Memory
    }
}

impl From<io::Error> for DeskFault {
    ghost use Rattle.std.specs.Prelude.{◌≡◌};
    ghost use Rattle.gr_base.specs.declared.desk.DeskFault.TheVariants.{Failed};

    ghost from_gives = { λ _ fault. fault ≡ Failed };

    fn from(_: io::Error) -> DeskFault {
        DeskFault::Failed
    }
}

/// A place with files: what a job reads from and writes to.
///
/// A name is the name of one file. A desk that doesn't tell its files promises nothing of their
/// content; each desk counts its faults, and what was taken from it.
pub trait Desk {
    /// What each name holds, where the desk tells it.
    ghost files: { Self → Option Files };

    /// How often a read was refused, up to its last value.
    ghost read_faults: { Self → ℕ };

    /// How often a write was refused, up to its last value.
    ghost write_faults: { Self → ℕ };

    /// The file that may be appended to.
    ghost made: { Self → Option (List ℕ) };

    /// Whether only a name that isn't held is refused.
    ghost steady: { Self → Bool };

    /// How many bytes were fetched, up to its last value.
    ghost taken: { Self → ℕ };

    /// Reads bytes of a file from a place into the front of the buffer, and answers how many.
    fn fetch(&mut self, name: &str, at: u64, buf: &mut [u8]) -> Result<usize, DeskFault>
        requires { 0 < length buf.old }
        ensures bound { IfOk result (λ n. n ≤ length buf.old) }
        ensures content { IfOk result (λ n. Told (files self.old) (Fetches name.now at buf.new n)) }
        ensures files { ToldBoth (files self.old) (files self.new) SameFiles }
        ensures taken { taken self.new ≡ counted (taken self.old) (result_unwrap_or result 0) }
        ensures made { made self.new ≡ made self.old }
        ensures steady { steady self.new ≡ steady self.old }
        ensures read_cause { HasCause (read_faults self.old) (read_faults self.new) result }
        ensures write_later { write_faults self.old ≤ write_faults self.new }
        ensures uncounted { result ≡ Err Memory → (read_faults self.new ≡ read_faults self.old) × (write_faults self.new ≡ write_faults self.old) }
        ensures sure { IsTrue (steady self.old) → Told (files self.old) (λ held. IsSome (held name.now) → result ≢ Err Failed) };

    /// Makes the file empty, whether it was there or not, and the one that may be appended to.
    fn create(&mut self, name: &str) -> Result<(), DeskFault>
        ensures empty { OnOk result (ToldBoth (files self.old) (files self.new) (Leaves name.now [])) }
        ensures made { OnOk result (made self.new ≡ Some name.now) }
        ensures err { OnErr result (ToldBoth (files self.old) (files self.new) SameFiles) }
        ensures not_made { OnErr result (OnSome (made self.new) (made self.new ≡ made self.old)) }
        ensures memory { result ≡ Err Memory → made self.new ≡ made self.old }
        ensures taken { taken self.new ≡ taken self.old }
        ensures steady { steady self.new ≡ steady self.old }
        ensures read_later { read_faults self.old ≤ read_faults self.new }
        ensures write_cause { HasCause (write_faults self.old) (write_faults self.new) result }
        ensures uncounted { result ≡ Err Memory → (read_faults self.new ≡ read_faults self.old) × (write_faults self.new ≡ write_faults self.old) }
        ensures sure { IsTrue (steady self.old) → result ≢ Err Failed };

    /// Adds bytes at the end of the file that was made, from the front of the piece, and answers how many.
    fn append(&mut self, name: &str, piece: &[u8]) -> Result<usize, DeskFault>
        requires piece { 0 < length piece.now }
        requires made { made self.old ≡ Some name.now }
        ensures some { IfOk result (λ n. 0 < n) }
        ensures bound { IfOk result (λ n. n ≤ length piece.now) }
        ensures adds { IfOk result (λ n. ToldBoth (files self.old) (files self.new) (Adds name.now (take n piece.now))) }
        ensures err { OnErr result (ToldBoth (files self.old) (files self.new) (LeavesPrefix name.now piece.now)) }
        ensures memory { result ≡ Err Memory → ToldBoth (files self.old) (files self.new) SameFiles }
        ensures made { made self.new ≡ made self.old }
        ensures taken { taken self.new ≡ taken self.old }
        ensures steady { steady self.new ≡ steady self.old }
        ensures read_later { read_faults self.old ≤ read_faults self.new }
        ensures write_cause { HasCause (write_faults self.old) (write_faults self.new) result }
        ensures uncounted { result ≡ Err Memory → (read_faults self.new ≡ read_faults self.old) × (write_faults self.new ≡ write_faults self.old) }
        ensures sure { IsTrue (steady self.old) → result ≢ Err Failed };

    /// A file of the name that may be appended to is held.
    ghost made_is_held: { (desk : Self) → MadeIsHeld (files desk) (made desk) };

    /// A desk that refuses nothing else tells its files.
    ghost steady_tells: { (desk : Self) → IsTrue (steady desk) → IsSome (files desk) };

    /// The count of bytes ends at its last value.
    ghost taken_fits: { (desk : Self) → taken desk ≤ 2 ^ 64 - 1 };
}
