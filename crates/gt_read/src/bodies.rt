ghost use Rattle.std.specs.Prelude.{◌≡◌, ◌+◌, ◌-◌, ◌^◌, ◌≤◌, ℕ, List, [], ◌++◌, Ok, length, drop, IfOk, IfErr};
ghost use Rattle.gt_model.specs.Schema.{ir_rows};
ghost use Rattle.gt_model.specs.Views.{ir_value};
ghost use Rattle.gt_read.specs.Drafts.Draft.{empty};
ghost use Rattle.gt_read.specs.Feeding.{body_as, body_ends, Comes, IsEarly};

use crate::fault::FormatFault;
use crate::feeding_drafts::BodyDraft;
use crate::file::BODY;
use crate::message::{Message, merge, take_front};
use crate::module_drafts::IrDraft;
use gr_base::{Bytes, End};
use gt_model::Ir;
use std::alloc::{AllocError, Global};

/// The bytes behind so many.
fn keep(alloc: Global, bytes: Bytes, size: usize) -> Result<Bytes, AllocError>
    requires { size ≤ length bytes }
    ensures { IfOk result (λ kept. kept ≡ drop size bytes) }
{
    if size == 0 {
        return Ok(bytes);
    }
    Bytes::from_slice(alloc, &bytes.as_slice()[size..])
}

impl BodyDraft {
    /// Reads the first bytes of a body, behind a prefix with this version.
    pub fn begin(alloc: Global, version: u8, bytes: &[u8]) -> Result<BodyDraft, End<FormatFault>>
        requires { 8 + length bytes.now ≤ 2 ^ 64 - 1 }
        ensures ok { IfOk result (λ made. (rest : List ℕ) → body_as made rest ≡ body_ends version (empty ir_rows 0) 8 (bytes.now ++ rest)) }
        ensures err { IfErr result (λ end. (rest : List ℕ) → Comes end (body_ends version (empty ir_rows 0) 8 (bytes.now ++ rest))) }
        ensures early { IfErr result IsEarly }
    {
        let mut draft = IrDraft::start(alloc, 0);
        let size = take_front(alloc, &mut draft, bytes, BODY as u64)?;
        let pending = Bytes::from_slice(alloc, &bytes[size..])?;
        Ok(BodyDraft {
            version,
            draft,
            place: BODY as u64 + size as u64,
            pending,
        })
    }

    /// Reads more bytes of a body.
    pub fn fed(self, alloc: Global, piece: &[u8]) -> Result<BodyDraft, End<FormatFault>>
        ensures ok { IfOk result (λ made. (rest : List ℕ) → body_as made rest ≡ body_as self (piece.now ++ rest)) }
        ensures err { IfErr result (λ end. (rest : List ℕ) → Comes end (body_as self (piece.now ++ rest))) }
        ensures early { IfErr result IsEarly }
    {
        let BodyDraft {
            version,
            mut draft,
            place,
            mut pending,
        } = self;
        pending.extend_from_slice(piece)?;
        if pending.len() as u64 > u64::MAX - place {
            return Err(End::Memory);
        }
        let size = take_front(alloc, &mut draft, pending.as_slice(), place)?;
        let pending = keep(alloc, pending, size)?;
        Ok(BodyDraft {
            version,
            draft,
            place: place + size as u64,
            pending,
        })
    }

    /// The IR, where no more bytes come.
    pub fn finish(self, alloc: Global) -> Result<Ir, End<FormatFault>>
        ensures ok { IfOk result (λ ir. body_as self [] ≡ Ok (ir_value ir)) }
        ensures err { IfErr result (λ end. Comes end (body_as self [])) }
    {
        let BodyDraft {
            version,
            mut draft,
            place,
            pending,
        } = self;
        merge(alloc, &mut draft, pending.as_slice(), place)?;
        if u32::from(version) != draft.version {
            return Err(End::Fault(FormatFault::Version(version, draft.version)));
        }
        let (ir, fault) = draft.finish(alloc)?;
        match fault {
            Some(fault) => Err(End::Fault(FormatFault::UuidLength(fault.place, fault.len))),
            None => Ok(ir),
        }
    }
}
