ghost use Rattle.std.specs.Prelude.{◌≡◌, ◌+◌, ◌-◌, ◌^◌, ◌≤◌, length, Some};
ghost use Rattle.gt_read.specs.declared.fault.FormatFault.TheVariants.{Prefix};
ghost use Rattle.gt_read.specs.File.{prefix_fault};

use crate::fault::FormatFault;
use crate::module_drafts::IrDraft;
use gr_base::{Bytes, End};

/// The first bytes of a file, of a prefix that isn't whole yet.
#[derive(Drop)]
pub struct PrefixDraft {
    pub bytes: Bytes,
    /// The place of the first byte that is missing.
    pub missing: u64,
    ghost is: { prefix_fault bytes ≡ Some (Prefix missing) },
}

/// A body after some of its records, and the bytes of the next one, which isn't whole yet.
#[derive(Drop)]
pub struct BodyDraft {
    pub version: u8,
    pub draft: IrDraft,
    /// The place of the first byte that isn't taken.
    pub place: u64,
    pub pending: Bytes,
    ghost fits: { place + length pending ≤ 2 ^ 64 - 1 },
}

/// How far a file was read.
#[derive(Drop)]
pub enum Stage {
    Prefix(PrefixDraft),
    Body(BodyDraft),
    /// Why no more is read.
    Stopped(End<FormatFault>),
}
