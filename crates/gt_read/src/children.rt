//! Messages in messages.

ghost use Rattle.std.specs.Prelude.{◌≡◌, [], ◌∷◌, ◌++◌, Option, Some, None, OnOk, IfOk};
ghost use Rattle.gt_model.specs.Schema.{Id};
ghost use Rattle.gt_read.specs.Drafts.Draft.{added, added_all};
ghost use Rattle.gt_read.specs.Faults.{message_faults, in_run};
ghost use Rattle.gt_read.specs.Identifiers.{earlier};
ghost use Rattle.gt_read.specs.Kinds.{values_of, run_of};
ghost use Rattle.gt_read.specs.Pieces.{pieces};
ghost use Rattle.gt_read.specs.Drafts.Answers.{piece, Answers, Entered, EntersRun, TakesMember, AddsRun, FinishesIf};

use crate::fault::FormatFault;
use crate::ids::{IdFault, Identifier, earlier};
use crate::message::{Message, merge, read_message};
use crate::pieces::{Carried, Piece, Run};
use gr_base::{End, Seq};
use std::alloc::{AllocError, Global};
use std::mem;
use uuid::Uuid;

/// Repeated messages that are read, or the first identifier in them that is at fault. From a fault on
/// none is kept: the file means nothing.
#[derive(Drop)]
pub struct Children<T> {
    pub items: Seq<T>,
    pub fault: Option<IdFault>,
}

impl<T: Drop> Children<T> {
    pub fn new(alloc: Global) -> Children<T>
        ensures items { result.items ≡ [] }
        ensures fault { result.fault ≡ None }
    {
        Children {
            items: Seq::new(alloc),
            fault: None,
        }
    }

    pub fn push(&mut self, alloc: Global, item: T, fault: Option<IdFault>) -> Result<(), AllocError>
        ensures { OnOk result ((self.new.items, self.new.fault) ≡ added (self.old.items, self.old.fault) (Some (item, fault))) }
    {
        self.fault = earlier(self.fault, fault);
        match self.fault {
            None => self.items.push(item)?,
            Some(_) => self.items = Seq::new(alloc),
        }
        Ok(())
    }
}

/// Takes a record of a repeated message.
pub fn take_child<M: Message>(
    alloc: Global,
    children: &mut Children<M::Made>,
    part: &Piece<'_>,
) -> Result<(), End<FormatFault>>
    ensures { Answers result (in_run (λ place start bytes. message_faults M.faults bytes start) part.now.place (piece part.now).carried)
        (λ _. AddsRun M.starts M.steps M.finishes children.old.items children.old.fault (run_of (piece part.now)) children.new.items children.new.fault) }
{
    match &part.carried {
        Carried::Number(_) => Ok(()),
        Carried::Fixed => Ok(()),
        Carried::Bytes(run) => {
            let (child, fault) = read_message::<M>(alloc, part.place, run)?;
            children.push(alloc, child, fault)?;
            Ok(())
        }
    }
}

/// Takes a record of a repeated identifier.
pub fn take_ids(alloc: Global, ids: &mut Children<Uuid>, part: &Piece<'_>) -> Result<(), AllocError>
    ensures { OnOk result ((ids.new.items, ids.new.fault) ≡ added_all Id (ids.old.items, ids.old.fault) (values_of Id (piece part.now))) }
{
    match &part.carried {
        Carried::Number(_) => Ok(()),
        Carried::Fixed => Ok(()),
        Carried::Bytes(run) => {
            let id = Identifier::read(part.place, run.bytes);
            ids.push(alloc, id.id, id.fault())?;
            Ok(())
        }
    }
}

/// The draft of an embedded message after one more payload, whose record stands at the place.
pub fn enter<M: Message>(
    alloc: Global,
    old: Option<M>,
    place: u64,
    run: &Run<'_>,
) -> Result<M, End<FormatFault>>
    ensures { Answers result (message_faults M.faults run.now.bytes.now run.now.start)
        (λ new. Entered M.starts M.steps old place (pieces run.now.bytes.now run.now.start) new) }
{
    match old {
        Some(mut draft) => {
            merge(alloc, &mut draft, run.bytes, run.start)?;
            Ok(draft)
        }
        None => {
            let mut draft = M::start(alloc, place);
            merge(alloc, &mut draft, run.bytes, run.start)?;
            Ok(draft)
        }
    }
}

/// Takes a record of an embedded message.
pub fn take_message<M: Message>(
    alloc: Global,
    slot: &mut Option<M>,
    part: &Piece<'_>,
) -> Result<(), End<FormatFault>>
    ensures { Answers result (in_run (λ place start bytes. message_faults M.faults bytes start) part.now.place (piece part.now).carried)
        (λ _. EntersRun M.starts M.steps slot.old (run_of (piece part.now)) slot.new) }
{
    match &part.carried {
        Carried::Number(_) => Ok(()),
        Carried::Fixed => Ok(()),
        Carried::Bytes(run) => {
            let old = slot.take();
            *slot = Some(enter(alloc, old, part.place, run)?);
            Ok(())
        }
    }
}

/// The embedded message, if there is one, and the first identifier in it that is at fault.
pub fn finish_message<M: Message>(
    alloc: Global,
    slot: Option<M>,
) -> Result<(Option<M::Made>, Option<IdFault>), AllocError>
    ensures { IfOk result (λ made. FinishesIf M.finishes slot made.0 made.1) }
{
    match slot {
        None => Ok((None, None)),
        Some(draft) => {
            let (made, fault) = draft.finish(alloc)?;
            Ok((Some(made), fault))
        }
    }
}

/// A oneof of which a message is a member.
pub trait OneOf<M>: Drop {
    ghost member: { Self → Option M };

    ghost made: { M → Self };

    /// The oneof without a member.
    fn unset() -> Self;

    /// The member, where it is the one that is set.
    fn into_member(self) -> Option<M>
        ensures { result ≡ member self };

    /// The oneof with the member set.
    fn of(message: M) -> Self
        ensures { result ≡ made message };
}

/// Takes a record of a member of a oneof. Where the member isn't set, it begins anew.
pub fn take_member<M: Message, O: OneOf<M>>(
    alloc: Global,
    slot: &mut O,
    part: &Piece<'_>,
) -> Result<(), End<FormatFault>>
    ensures { Answers result (in_run (λ place start bytes. message_faults M.faults bytes start) part.now.place (piece part.now).carried)
        (λ _. TakesMember M.starts M.steps O.member O.made slot.old (run_of (piece part.now)) slot.new) }
{
    match &part.carried {
        Carried::Number(_) => Ok(()),
        Carried::Fixed => Ok(()),
        Carried::Bytes(run) => {
            let old = mem::replace(slot, O::unset()).into_member();
            *slot = O::of(enter(alloc, old, part.place, run)?);
            Ok(())
        }
    }
}
