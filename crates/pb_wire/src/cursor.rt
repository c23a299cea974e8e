ghost use Rattle.std.specs.Prelude.{◌≡◌, ◌≢◌, ◌↔◌, ◌+◌, ◌-◌, ◌^◌, ◌<◌, ◌≤◌, List, [], ◌∷◌, length, IfOk, IfErr, OnErr, IfSome, OnSome};
ghost use Rattle.pb_wire.specs.declared.records.Record.{Record};
ghost use Rattle.pb_wire.specs.declared.fault.WireFault.{WireFault};
ghost use Rattle.pb_wire.specs.Records.{records, Takes, RunLies};
ghost use Rattle.pb_wire.specs.Faults.{wire_fault};

use crate::fault::{WireFault, WireReason};
use crate::records::{Record, Scan};
use crate::scanning::scan;
use std::marker::Model;

/// Reads the records of a message, one after another.
///
/// Contracts see it as the place of the next byte and the bytes that are left.
#[derive(Debug, Drop)]
pub struct Cursor<'a> {
    left: &'a [u8],
    place: u64,
}

impl<'a> Model for Cursor<'a> {
    ghost use Rattle.std.specs.Prelude.{◌+◌, ◌-◌, ◌^◌, ◌≤◌, length};
    ghost use Rattle.pb_wire.specs.Ahead.{Ahead};

    ghost Value = { Ahead };

    ghost view = { λ c. record { place = c.place; bytes = c.left.now } };

    ghost invariant = { λ c. c.place + length c.left.now ≤ 2 ^ 64 - 1 };
}

impl<'a> Cursor<'a> {
    /// Stands at the first of the bytes, whose place is `base`.
    pub fn new(bytes: &'a [u8], base: u64) -> Cursor<'a>
        requires { base + length bytes.now ≤ 2 ^ 64 - 1 }
        ensures { result ≡ record { place = base; bytes = bytes.now } }
    {
        Cursor {
            left: bytes,
            place: base,
        }
    }

    /// The next record, or `None` at the end. It takes no memory.
    pub fn next(&mut self) -> Result<Option<Record>, WireFault>
        ensures none { (result ≡ Ok None) ↔ (self.old.bytes ≡ []) }
        ensures end { result ≡ Ok None → self.new ≡ self.old }

        // A record is the first of the list, and the rest of the list and every fault are those of what is left.
        ensures takes { IfOk result (λ found. IfSome found (λ r. Takes r self.old self.new)) }
        ensures shorter { IfOk result (λ found. OnSome found (length self.new.bytes < length self.old.bytes)) }
        ensures together { self.new.place + length self.new.bytes ≡ self.old.place + length self.old.bytes }
        ensures run { IfOk result (λ found. IfSome found (λ r. RunLies r.load self.old self.new)) }
        ensures list { IfOk result (λ found. IfSome found (λ r. (list : List Record) →
            records self.old.bytes self.old.place list ↔ ((more : List Record) × (list ≡ r ∷ more) × records self.new.bytes self.new.place more))) }
        ensures fault { IfOk result (λ found. IfSome found (λ _. (fault : WireFault) →
            wire_fault self.old.bytes self.old.place fault ↔ wire_fault self.new.bytes self.new.place fault)) }

        // After a fault it answers the same fault again.
        ensures err { IfErr result (wire_fault self.old.bytes self.old.place) }
        ensures here { IfErr result (λ fault. fault.place ≡ self.old.place) }
        ensures no_list { OnErr result ((list : List Record) → records self.old.bytes self.old.place list → ⊥) }
        ensures still { OnErr result (self.new ≡ self.old) }
    {
        if self.left.is_empty() {
            return Ok(None);
        }
        match scan(self.left, self.place) {
            Ok(Scan::Whole(record, size)) => {
                self.left = &self.left[size as usize..];
                self.place += size;
                Ok(Some(record))
            }
            Ok(Scan::Short) => Err(WireFault {
                place: self.place,
                reason: WireReason::Truncated,
            }),
            Err(fault) => Err(fault),
        }
    }
}
