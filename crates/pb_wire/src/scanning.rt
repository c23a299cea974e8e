ghost use Rattle.std.specs.Prelude.{◌≡◌, ◌↔◌, ◌+◌, ◌-◌, ◌^◌, ◌≤◌, ℕ, List, ◌++◌, length, Ok, Err, IfErr};
ghost use Rattle.pb_wire.specs.declared.fault.WireFault.{WireFault};
ghost use Rattle.pb_wire.specs.declared.fault.WireReason.TheVariants.{Truncated};
ghost use Rattle.pb_wire.specs.declared.records.Record.{Record};
ghost use Rattle.pb_wire.specs.declared.records.Scan.TheVariants.{Whole, Short};
ghost use Rattle.pb_wire.specs.Faults.{Fails, wire_fault};
ghost use Rattle.pb_wire.specs.Reading.{record_of};
ghost use Rattle.pb_wire.specs.Scanning.{IsFront, IsBroken, scan_of};

use crate::fault::{WireFault, WireReason};
use crate::reading::read_record;
use crate::records::{Record, Scan};

/// What stands at the front, by the function that reads it.
fn front(bytes: &[u8], base: u64) -> Result<Scan, WireFault>
    requires { base + length bytes.now ≤ 2 ^ 64 - 1 }
    ensures { result ≡ scan_of base (record_of bytes.now base) }
{
    match read_record(bytes, base) {
        Ok((record, size)) => Ok(Scan::Whole(record, size as u64)),
        Err(reason) => match reason {
            WireReason::Truncated => Ok(Scan::Short),
            WireReason::Varint | WireReason::WireType | WireReason::FieldZero => {
                Err(WireFault {
                    place: base,
                    reason,
                })
            }
        },
    }
}

/// The record at the front of bytes, of which the first is at the base, or why there is none. No
/// bytes are `Short`. It takes no memory.
pub fn scan(bytes: &[u8], base: u64) -> Result<Scan, WireFault>
    requires { base + length bytes.now ≤ 2 ^ 64 - 1 }
    ensures whole { (r : Record) (size : ℕ) → (result ≡ Ok (Whole r size)) ↔ IsFront bytes.now base r size }
    ensures short { (result ≡ Ok Short) ↔ Fails bytes.now Truncated }
    ensures fault { (fault : WireFault) → (result ≡ Err fault) ↔ IsBroken bytes.now base fault }

    // The fault is the same, whatever bytes follow.
    ensures lasts { IfErr result (λ fault. (more : List ℕ) → wire_fault (bytes.now ++ more) base fault) }
{
    front(bytes, base)
}
