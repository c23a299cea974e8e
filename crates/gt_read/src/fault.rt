ghost use Rattle.std.specs.Prelude.{Some};
ghost use Rattle.gt_read.specs.FaultText.{fault_text, reason_text};

use pb_wire::{WireFault, WireReason};
use std::fmt;

/// Why bytes are no GTIRB file, in the order of precedence. Places count from the file's start.
#[derive(Clone, Copy, Debug, PartialEq, Eq)]
pub enum FormatFault {
    /// The first wrong or missing byte of the prefix.
    Prefix(u64),
    /// A record that can't be completed, or a packed run that isn't a list of varints.
    Wire(WireFault),
    /// The record of a text that isn't UTF-8.
    Utf8(u64),
    /// The version byte of the prefix, and the field of the version, where these differ.
    Version(u8, u32),
    /// The place and the length of an identifier that hasn't sixteen bytes.
    UuidLength(u64, u64),
}

/// The words of a reason.
#[derive(Drop)]
struct Reason(WireReason);

impl fmt::Display for Reason {
    ghost output = { λ reason. Some (reason_text reason.0) };

    fn fmt<W: fmt::Write>(&self, f: &mut fmt::Formatter<W>) -> fmt::Result {
        match self.0 {
            WireReason::Varint => write!(f, "varint"),
            WireReason::Truncated => write!(f, "truncated"),
            WireReason::WireType => write!(f, "wire type"),
            WireReason::FieldZero => write!(f, "field zero"),
        }
    }
}

impl fmt::Display for FormatFault {
    ghost output = { λ fault. Some (fault_text fault) };

    fn fmt<W: fmt::Write>(&self, f: &mut fmt::Formatter<W>) -> fmt::Result {
        match self {
            FormatFault::Prefix(place) => write!(f, "prefix at {place}"),
            FormatFault::Wire(fault) => write!(f, "{} at {}", Reason(fault.reason), fault.place),
            FormatFault::Utf8(place) => write!(f, "not UTF-8 at {place}"),
            FormatFault::Version(byte, field) => write!(f, "version {byte} and {field}"),
            FormatFault::UuidLength(place, length) => {
                write!(f, "UUID of {length} bytes at {place}")
            }
        }
    }
}
