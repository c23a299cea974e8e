ghost use Rattle.std.specs.Prelude.{◌≡◌, ◌+◌, ◌-◌, ◌^◌, ◌≤◌, ℕ, List, [], ◌++◌, Some, None, Ok, Err, length, OnOk, IfOk, IfErr};
ghost use Rattle.gr_base.specs.declared.end.End.{End};
ghost use Rattle.gt_model.specs.Views.{ir_value};
ghost use Rattle.gt_read.specs.declared.fault.FormatFault.{FormatFault};
ghost use Rattle.gt_read.specs.declared.fault.FormatFault.TheVariants.{Prefix};
ghost use Rattle.gt_read.specs.Feeding.{stage_as, stage_end, ends_as, stopped, Comes, IsEarly, TookPiece};
ghost use Rattle.gt_read.specs.File.{prefix_fault};
ghost use Rattle.gt_read.specs.Outcome.{outcome};

use crate::fault::FormatFault;
use crate::feeding_drafts::{BodyDraft, PrefixDraft, Stage};
use crate::file::{BODY, prefix_fault};
use gr_base::{Bytes, End, Taker};
use gt_model::Ir;
use std::alloc::{AllocError, Global};
use std::mem;

/// Reads a file whose bytes come in pieces.
///
/// It keeps the IR so far, and the bytes of the one record of the IR that isn't whole yet.
#[derive(Drop)]
pub struct Feeder {
    alloc: Global,
    stage: Stage,
}

/// Keeps the first bytes of a prefix that isn't whole, or tells the first wrong one.
fn begin_prefix(alloc: Global, bytes: &[u8], missing: u64) -> Result<Stage, End<FormatFault>>
    requires { prefix_fault bytes.now ≡ Some (Prefix missing) }
    ensures ok { IfOk result (λ stage. (rest : List ℕ) → stage_as stage rest ≡ outcome (bytes.now ++ rest)) }
    ensures going { IfOk result (λ stage. stage_end stage ≡ None) }
    ensures err { IfErr result (λ end. (rest : List ℕ) → Comes end (outcome (bytes.now ++ rest))) }
    ensures early { IfErr result IsEarly }
{
    if missing < bytes.len() as u64 {
        return Err(End::Fault(FormatFault::Prefix(missing)));
    }
    let bytes = Bytes::from_slice(alloc, bytes)?;
    Ok(Stage::Prefix(PrefixDraft { bytes, missing }))
}

/// Reads the first bytes of a file.
fn begin_file(alloc: Global, bytes: &[u8]) -> Result<Stage, End<FormatFault>>
    ensures ok { IfOk result (λ stage. (rest : List ℕ) → stage_as stage rest ≡ outcome (bytes.now ++ rest)) }
    ensures going { IfOk result (λ stage. stage_end stage ≡ None) }
    ensures err { IfErr result (λ end. (rest : List ℕ) → Comes end (outcome (bytes.now ++ rest))) }
    ensures early { IfErr result IsEarly }
{
    if let Some(missing) = prefix_fault(bytes) {
        return begin_prefix(alloc, bytes, missing);
    }
    let body = BodyDraft::begin(alloc, bytes[BODY - 1], &bytes[BODY..])?;
    Ok(Stage::Body(body))
}

impl PrefixDraft {
    /// Reads more bytes of a file.
    fn fed(self, alloc: Global, piece: &[u8]) -> Result<Stage, End<FormatFault>>
        ensures ok { IfOk result (λ stage. (rest : List ℕ) → stage_as stage rest ≡ outcome (self.bytes ++ (piece.now ++ rest))) }
        ensures going { IfOk result (λ stage. stage_end stage ≡ None) }
        ensures err { IfErr result (λ end. (rest : List ℕ) → Comes end (outcome (self.bytes ++ (piece.now ++ rest)))) }
        ensures early { IfErr result IsEarly }
    {
        let PrefixDraft {
            mut bytes,
            missing: _,
        } = self;
        if bytes.is_empty() {
            return begin_file(alloc, piece);
        }
        bytes.extend_from_slice(piece)?;
        begin_file(alloc, bytes.as_slice())
    }
}

impl Stage {
    /// Reads more bytes of a file.
    fn fed(self, alloc: Global, piece: &[u8]) -> Result<Stage, End<FormatFault>>
        ensures ok { IfOk result (λ stage. (rest : List ℕ) → stage_as stage rest ≡ stage_as self (piece.now ++ rest)) }
        ensures going { IfOk result (λ stage. stage_end stage ≡ None) }
        ensures err { IfErr result (λ end. (rest : List ℕ) → Comes end (stage_as self (piece.now ++ rest))) }
        ensures early { stage_end self ≡ None → IfErr result IsEarly }
        ensures again { (end : End FormatFault) → stage_end self ≡ Some end → result ≡ Err end }
    {
        match self {
            Stage::Prefix(front) => front.fed(alloc, piece),
            Stage::Body(body) => {
                let body = body.fed(alloc, piece)?;
                Ok(Stage::Body(body))
            }
            Stage::Stopped(end) => Err(end),
        }
    }
}

impl Feeder {
    /// A feeder of no bytes yet. It takes no memory.
    pub fn new(alloc: Global) -> Feeder
        ensures starts { (rest : List ℕ) → ends_as result rest ≡ outcome rest }
        ensures going { stopped result ≡ None }
    {
        Feeder {
            alloc,
            stage: Stage::Prefix(PrefixDraft {
                bytes: Bytes::new(alloc),
                missing: 0,
            }),
        }
    }

    /// Reads more bytes of the file. A record that more bytes may complete waits for them.
    pub fn feed(&mut self, piece: &[u8]) -> Result<(), End<FormatFault>>
        ensures ok { OnOk result (TookPiece self.old piece.now self.new) }

        // A fault is that of the file, whatever follows, and after it and after want of memory the answer stays.
        ensures fault { IfErr result (λ end. (rest : List ℕ) → Comes end (ends_as self.old (piece.now ++ rest))) }
        ensures early { stopped self.old ≡ None → IfErr result IsEarly }
        ensures stays { IfErr result (λ end. (rest : List ℕ) → ends_as self.new rest ≡ Err end) }
        ensures stops { IfErr result (λ end. stopped self.new ≡ Some end) }
        ensures again { (end : End FormatFault) → stopped self.old ≡ Some end → result ≡ Err end }
    {
        let stage = mem::replace(&mut self.stage, Stage::Stopped(End::Memory));
        match stage.fed(self.alloc, piece) {
            Ok(stage) => {
                self.stage = stage;
                Ok(())
            }
            Err(end) => {
                self.stage = Stage::Stopped(end);
                Err(end)
            }
        }
    }

    /// The IR, where no more bytes come.
    pub fn finish(self) -> Result<Ir, End<FormatFault>>
        ensures found { IfOk result (λ ir. ends_as self [] ≡ Ok (ir_value ir)) }
        ensures fault { IfErr result (λ end. Comes end (ends_as self [])) }
        ensures again { (end : End FormatFault) → stopped self ≡ Some end → result ≡ Err end }
    {
        let Feeder { alloc, stage } = self;
        match stage {
            Stage::Prefix(front) => Err(End::Fault(FormatFault::Prefix(front.missing))),
            Stage::Body(body) => body.finish(alloc),
            Stage::Stopped(end) => Err(end),
        }
    }
}

impl Taker for Feeder {
    ghost use Rattle.gt_read.specs.Feeding.{TookPiece};
    ghost use Rattle.gt_read.specs.FeedingLaws.{took_none, took_both};

    ghost took = { TookPiece };

    ghost took_none = { took_none };

    ghost took_both = { took_both };

    /// After a fault of the file it takes the rest, and `finish` answers the fault.
    fn take(&mut self, piece: &[u8]) -> Result<(), AllocError> {
        match self.feed(piece) {
            Ok(()) => Ok(()),
            Err(End::Fault(_)) => Ok(()),
            Err(End::Memory) => Err(AllocError),
        }
    }
}
