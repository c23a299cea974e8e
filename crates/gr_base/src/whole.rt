ghost use Rattle.std.specs.Prelude.{◌≡◌, ◌≤◌, ◌<◌, ◌+◌, ◌-◌, ◌^◌, ℕ, List, [], Some, None, length, IsTrue, IfOk, OnOk, OnErr, Err, ◌≢◌};
ghost use Rattle.gr_base.specs.declared.end.End.TheVariants as ends;
ghost use Rattle.gr_base.specs.declared.whole.ReadEnd.TheVariants as reads;
ghost use Rattle.gr_base.specs.declared.whole.WriteFault.{WriteFault};
ghost use Rattle.gr_base.specs.Desk.{Files, Told, ToldBoth, SameFiles, Leaves, LeavesPart, Rose, Took, counted};
ghost use Rattle.gr_base.specs.Whole.{LeavesFront, TakesFile};

use crate::bytes::Bytes;
use crate::desk::{Desk, DeskFault};
use crate::end::End;
use crate::taker::Taker;
use std::alloc::Global;

/// The most bytes of one input file, 64 MiB.
pub const MOST: usize = 67_108_864;

/// The most bytes of one fetch.
const PIECE: usize = 4_096;

/// Why a file wasn't read whole.
#[derive(Clone, Copy, Debug, PartialEq, Eq)]
pub enum ReadEnd {
    /// The desk refused a read.
    Fault,
    /// The file has more than `MOST` bytes.
    TooLarge,
}

/// The desk refused to make the file or to add to it.
#[derive(Clone, Copy, Debug, PartialEq, Eq)]
pub struct WriteFault;

impl From<DeskFault> for End<ReadEnd> {
    ghost use Rattle.std.specs.Prelude.{◌≡◌};
    ghost use Rattle.gr_base.specs.Whole.{read_end};

    ghost from_gives = { λ fault end. end ≡ read_end fault };

    fn from(fault: DeskFault) -> End<ReadEnd> {
        match fault {
            DeskFault::Failed => End::Fault(ReadEnd::Fault),
            DeskFault::Memory => End::Memory,
        }
    }
}

impl From<DeskFault> for End<WriteFault> {
    ghost use Rattle.std.specs.Prelude.{◌≡◌};
    ghost use Rattle.gr_base.specs.Whole.{write_end};

    ghost from_gives = { λ fault end. end ≡ write_end fault };

    fn from(fault: DeskFault) -> End<WriteFault> {
        match fault {
            DeskFault::Failed => End::Fault(WriteFault),
            DeskFault::Memory => End::Memory,
        }
    }
}

/// All bytes of a file, of at most `MOST`.
pub fn read_whole<D: Desk>(alloc: Global, desk: &mut D, name: &str) -> Result<Bytes, End<ReadEnd>>
    ensures bound { IfOk result (λ bytes. length bytes ≤ 2 ^ 26) }
    ensures content { IfOk result (λ bytes. Told (D.files desk.old) (λ held. held name.now ≡ Some bytes)) }
    ensures files { ToldBoth (D.files desk.old) (D.files desk.new) SameFiles }
    ensures made { D.made desk.new ≡ D.made desk.old }
    ensures steady { D.steady desk.new ≡ D.steady desk.old }
    ensures taken { (count : ℕ) × (count ≤ 2 ^ 26 + 1) × (D.taken desk.new ≡ counted (D.taken desk.old) count) }
    ensures read_later { D.read_faults desk.old ≤ D.read_faults desk.new }
    ensures write_later { D.write_faults desk.old ≤ D.write_faults desk.new }
    ensures fault { result ≡ Err (ends.Fault reads.Fault) → Rose (D.read_faults desk.old) (D.read_faults desk.new) }
    ensures large { result ≡ Err (ends.Fault reads.TooLarge) → Took (2 ^ 26 + 1) (D.taken desk.old) (D.taken desk.new) }
    ensures longer { result ≡ Err (ends.Fault reads.TooLarge) → Told (D.files desk.old) (λ held. (bytes : List ℕ) × (held name.now ≡ Some bytes) × (2 ^ 26 < length bytes)) }
    ensures missing { IsTrue (D.steady desk.old) → result ≡ Err (ends.Fault reads.Fault) → Told (D.files desk.old) (λ held. held name.now ≡ None) }
{
    let mut bytes = Bytes::new(alloc);
    read_into(desk, name, &mut bytes)?;
    Ok(bytes)
}

/// Hands all bytes of a file, of at most `MOST`, to a taker, piece after piece, and answers how many
/// they are. After an `Err` nothing is said of the taker.
pub fn read_into<D: Desk, T: Taker>(
    desk: &mut D,
    name: &str,
    taker: &mut T,
) -> Result<u64, End<ReadEnd>>
    ensures found { IfOk result (λ count. TakesFile T.took (D.files desk.old) name.now taker.old taker.new count) }
    ensures files { ToldBoth (D.files desk.old) (D.files desk.new) SameFiles }
    ensures made { D.made desk.new ≡ D.made desk.old }
    ensures steady { D.steady desk.new ≡ D.steady desk.old }
    ensures taken { (count : ℕ) × (count ≤ 2 ^ 26 + 1) × (D.taken desk.new ≡ counted (D.taken desk.old) count) }
    ensures read_later { D.read_faults desk.old ≤ D.read_faults desk.new }
    ensures write_later { D.write_faults desk.old ≤ D.write_faults desk.new }
    ensures fault { result ≡ Err (ends.Fault reads.Fault) → Rose (D.read_faults desk.old) (D.read_faults desk.new) }
    ensures large { result ≡ Err (ends.Fault reads.TooLarge) → Took (2 ^ 26 + 1) (D.taken desk.old) (D.taken desk.new) }
    ensures longer { result ≡ Err (ends.Fault reads.TooLarge) → Told (D.files desk.old) (λ held. (all : List ℕ) × (held name.now ≡ Some all) × (2 ^ 26 < length all)) }
    ensures missing { IsTrue (D.steady desk.old) → result ≡ Err (ends.Fault reads.Fault) → Told (D.files desk.old) (λ held. held name.now ≡ None) }
{
    let mut buffer = [0u8; PIECE];
    let mut count = 0;
    while count <= MOST {
        let size = PIECE.min(MOST + 1 - count);
        let more = desk.fetch(name, count as u64, &mut buffer[..size])?;
        if more == 0 {
            return Ok(count as u64);
        }
        taker.take(&buffer[..more])?;
        count += more;
    }
    Err(End::Fault(ReadEnd::TooLarge))
}

/// Makes a file of these bytes.
pub fn write_whole<D: Desk>(desk: &mut D, name: &str, bytes: &[u8]) -> Result<(), End<WriteFault>>
    ensures ok { OnOk result (ToldBoth (D.files desk.old) (D.files desk.new) (Leaves name.now bytes.now)) }
    ensures made { OnOk result (D.made desk.new ≡ Some name.now) }
    ensures err { OnErr result (ToldBoth (D.files desk.old) (D.files desk.new) (LeavesPart name.now bytes.now)) }
    ensures taken { D.taken desk.new ≡ D.taken desk.old }
    ensures steady { D.steady desk.new ≡ D.steady desk.old }
    ensures read_later { D.read_faults desk.old ≤ D.read_faults desk.new }
    ensures write_later { D.write_faults desk.old ≤ D.write_faults desk.new }
    ensures fault { result ≡ Err (ends.Fault (record {})) → Rose (D.write_faults desk.old) (D.write_faults desk.new) }
    ensures sure { IsTrue (D.steady desk.old) → result ≢ Err (ends.Fault (record {})) }
{
    desk.create(name)?;
    append_all(desk, name, bytes)
}

// Adds these bytes to the file that was made, which is empty.
fn append_all<D: Desk>(desk: &mut D, name: &str, bytes: &[u8]) -> Result<(), End<WriteFault>>
    requires made { D.made desk.old ≡ Some name.now }
    requires empty { Told (D.files desk.old) (λ held. held name.now ≡ Some []) }
    ensures ok { OnOk result (ToldBoth (D.files desk.old) (D.files desk.new) (Leaves name.now bytes.now)) }
    ensures made { D.made desk.new ≡ D.made desk.old }
    ensures err { OnErr result (ToldBoth (D.files desk.old) (D.files desk.new) (LeavesFront name.now bytes.now)) }
    ensures taken { D.taken desk.new ≡ D.taken desk.old }
    ensures steady { D.steady desk.new ≡ D.steady desk.old }
    ensures read_later { D.read_faults desk.old ≤ D.read_faults desk.new }
    ensures write_later { D.write_faults desk.old ≤ D.write_faults desk.new }
    ensures fault { result ≡ Err (ends.Fault (record {})) → Rose (D.write_faults desk.old) (D.write_faults desk.new) }
    ensures sure { IsTrue (D.steady desk.old) → result ≢ Err (ends.Fault (record {})) }
{
    let mut rest = bytes;
    while !rest.is_empty() {
        let count = desk.append(name, rest)?;
        rest = &rest[count..];
    }
    Ok(())
}
