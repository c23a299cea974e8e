ghost use Rattle.std.specs.Prelude.{◌≡◌, map, IfOk, OnOk};
ghost use Rattle.gt_model.specs.Schema.{NumberKey, addr_const_rows, addr_addr_rows, expr_rows};
ghost use Rattle.gt_model.specs.Views.{expr_entry};
ghost use Rattle.gt_read.specs.Drafts.Views.{addr_const_draft, addr_addr_draft, expr_draft, addr_const, addr_addr, expr_parts, expr_entry_draft, expr_entry_parts, expr_held, expr_finished, const_of, addr_of, FinishesValue};
ghost use Rattle.gt_read.specs.Drafts.Draft.{entered_map, map_fault};
ghost use Rattle.gt_read.specs.Drafts.Entries.{entry_rows, EntryFinishes};
ghost use Rattle.gt_read.specs.declared.expr_drafts.ValueDraft.TheVariants as values;
ghost use Rattle.gt_read.specs.Faults.{piece_faults, faults, entry_faults, message_faults, in_run};
ghost use Rattle.gt_read.specs.Kinds.{run_of};
ghost use Rattle.gt_read.specs.Drafts.Answers.{piece, Answers, Starts, Steps, Finishes};

use crate::children::{OneOf, finish_message, take_member, take_message};
use crate::expr_drafts::{
    AddrAddr, AddrAddrDraft, AddrConst, AddrConstDraft, ExprDraft, ExprEntry, ExprEntryDraft,
    ExprParts, HeldExpr, ValueDraft,
};
use crate::fault::FormatFault;
use crate::ids::{IdFault, Identifier, earlier};
use crate::message::{Message, read_message};
use crate::packed::take_numbers;
use crate::pieces::{Carried, Piece};
use crate::slots::{take_signed, take_unsigned};
use gr_base::{End, Seq};
use gt_model::{Expr, ExprValue};
use std::alloc::{AllocError, Global};
use std::collections::BTreeMap;

impl OneOf<AddrConstDraft> for ValueDraft {
    ghost member = { const_of };

    ghost made = { values.AddrConst };

    fn unset() -> ValueDraft {
        ValueDraft::Nothing
    }

    fn into_member(self) -> Option<AddrConstDraft> {
        match self {
            ValueDraft::AddrConst(draft) => Some(draft),
            ValueDraft::Nothing | ValueDraft::AddrAddr(_) => None,
        }
    }

    fn of(message: AddrConstDraft) -> ValueDraft {
        ValueDraft::AddrConst(message)
    }
}

impl OneOf<AddrAddrDraft> for ValueDraft {
    ghost member = { addr_of };

    ghost made = { values.AddrAddr };

    fn unset() -> ValueDraft {
        ValueDraft::Nothing
    }

    fn into_member(self) -> Option<AddrAddrDraft> {
        match self {
            ValueDraft::AddrAddr(draft) => Some(draft),
            ValueDraft::Nothing | ValueDraft::AddrConst(_) => None,
        }
    }

    fn of(message: AddrAddrDraft) -> ValueDraft {
        ValueDraft::AddrAddr(message)
    }
}

fn finish_value(
    alloc: Global,
    value: ValueDraft,
) -> Result<(ExprValue, Option<IdFault>), AllocError>
    ensures { IfOk result (λ made. FinishesValue value made.0 made.1) }
{
    match value {
        ValueDraft::Nothing => Ok((ExprValue::Nothing, None)),
        ValueDraft::AddrConst(draft) => {
            let (made, fault) = draft.finish(alloc)?;
            let value = ExprValue::AddrConst {
                offset: made.offset,
                symbol: made.symbol,
            };
            Ok((value, fault))
        }
        ValueDraft::AddrAddr(draft) => {
            let (made, fault) = draft.finish(alloc)?;
            let value = ExprValue::AddrAddr {
                scale: made.scale,
                offset: made.offset,
                first: made.first,
                second: made.second,
            };
            Ok((value, fault))
        }
    }
}

/// Takes an entry of the map from offsets to expressions.
pub fn take_expr(
    alloc: Global,
    exprs: &mut BTreeMap<u64, HeldExpr>,
    part: &Piece<'_>,
) -> Result<(), End<FormatFault>>
    ensures { Answers result (in_run (λ place start bytes. message_faults (entry_faults NumberKey (faults expr_rows)) bytes start) part.now.place (piece part.now).carried)
        (λ _. map expr_held exprs.new.entries ≡ entered_map NumberKey expr_rows (map expr_held exprs.old.entries) (run_of (piece part.now))) }
{
    match &part.carried {
        Carried::Number(_) => Ok(()),
        Carried::Fixed => Ok(()),
        Carried::Bytes(run) => {
            let (entry, fault) = read_message::<ExprEntryDraft>(alloc, part.place, run)?;
            let ExprEntry { at, parts } = entry;
            exprs.insert(at, HeldExpr { parts, fault })?;
            Ok(())
        }
    }
}

/// The expressions in order, and the first identifier in them that is at fault.
pub fn finish_exprs(
    alloc: Global,
    exprs: BTreeMap<u64, HeldExpr>,
) -> Result<(Seq<Expr>, Option<IdFault>), AllocError>
    ensures items { IfOk result (λ made. map expr_entry made.0 ≡ map expr_finished exprs.entries) }
    ensures fault { IfOk result (λ made. made.1 ≡ map_fault (map expr_held exprs.entries)) }
{
    let mut items = Vec::new(alloc);
    let mut worst = None;
    for (at, held) in exprs {
        let HeldExpr { parts, fault } = held;
        let ExprParts { value, flags } = parts;
        items.push(Expr { at, value, flags })?;
        worst = earlier(worst, fault);
    }
    Ok((Seq::from_vec(items), worst))
}

impl Message for AddrConstDraft {
    type Made = AddrConst;

    ghost starts = { Starts addr_const_rows addr_const_draft };

    ghost steps = { Steps addr_const_rows addr_const_draft };

    ghost faults = { piece_faults addr_const_rows };

    ghost finishes = { Finishes addr_const_rows addr_const_draft addr_const };

    fn start(_: Global, place: u64) -> AddrConstDraft {
        AddrConstDraft {
            offset: 0,
            symbol: Identifier::missing(place),
        }
    }

    fn take(&mut self, _: Global, part: &Piece<'_>) -> Result<(), End<FormatFault>> {
        match part.number {
            1 => {
                take_signed(&mut self.offset, part);
                Ok(())
            }
            2 => {
                self.symbol.take(part);
                Ok(())
            }
            _ => Ok(()),
        }
    }

    fn finish(self, _: Global) -> Result<(AddrConst, Option<IdFault>), AllocError> {
        let fault = self.symbol.optional_fault();
        let made = AddrConst {
            offset: self.offset,
            symbol: self.symbol.optional(),
        };
        Ok((made, fault))
    }
}

impl Message for AddrAddrDraft {
    type Made = AddrAddr;

    ghost starts = { Starts addr_addr_rows addr_addr_draft };

    ghost steps = { Steps addr_addr_rows addr_addr_draft };

    ghost faults = { piece_faults addr_addr_rows };

    ghost finishes = { Finishes addr_addr_rows addr_addr_draft addr_addr };

    fn start(_: Global, place: u64) -> AddrAddrDraft {
        AddrAddrDraft {
            scale: 0,
            offset: 0,
            first: Identifier::missing(place),
            second: Identifier::missing(place),
        }
    }

    fn take(&mut self, _: Global, part: &Piece<'_>) -> Result<(), End<FormatFault>> {
        match part.number {
            1 => {
                take_signed(&mut self.scale, part);
                Ok(())
            }
            2 => {
                take_signed(&mut self.offset, part);
                Ok(())
            }
            3 => {
                self.first.take(part);
                Ok(())
            }
            4 => {
                self.second.take(part);
                Ok(())
            }
            _ => Ok(()),
        }
    }

    fn finish(self, _: Global) -> Result<(AddrAddr, Option<IdFault>), AllocError> {
        let fault = earlier(self.first.optional_fault(), self.second.optional_fault());
        let made = AddrAddr {
            scale: self.scale,
            offset: self.offset,
            first: self.first.optional(),
            second: self.second.optional(),
        };
        Ok((made, fault))
    }
}

impl Message for ExprDraft {
    type Made = ExprParts;

    ghost starts = { Starts expr_rows expr_draft };

    ghost steps = { Steps expr_rows expr_draft };

    ghost faults = { piece_faults expr_rows };

    ghost finishes = { Finishes expr_rows expr_draft expr_parts };

    fn start(alloc: Global, _: u64) -> ExprDraft {
        ExprDraft {
            value: ValueDraft::Nothing,
            flags: Seq::new(alloc),
        }
    }

    fn take(&mut self, alloc: Global, part: &Piece<'_>) -> Result<(), End<FormatFault>> {
        match part.number {
            2 => {
                take_member::<AddrConstDraft, ValueDraft>(alloc, &mut self.value, part)?;
                Ok(())
            }
            3 => {
                take_member::<AddrAddrDraft, ValueDraft>(alloc, &mut self.value, part)?;
                Ok(())
            }
            4 => {
                take_numbers(&mut self.flags, part)?;
                Ok(())
            }
            _ => Ok(()),
        }
    }

    fn finish(self, alloc: Global) -> Result<(ExprParts, Option<IdFault>), AllocError> {
        let ExprDraft { value, flags } = self;
        let (value, fault) = finish_value(alloc, value)?;
        Ok((ExprParts { value, flags }, fault))
    }
}

impl Message for ExprEntryDraft {
    type Made = ExprEntry;

    ghost starts = { Starts (entry_rows NumberKey expr_rows) expr_entry_draft };

    ghost steps = { Steps (entry_rows NumberKey expr_rows) expr_entry_draft };

    ghost faults = { entry_faults NumberKey (faults expr_rows) };

    ghost finishes = { EntryFinishes NumberKey expr_rows expr_entry_draft expr_entry_parts };

    fn start(_: Global, _: u64) -> ExprEntryDraft {
        ExprEntryDraft { at: 0, value: None }
    }

    fn take(&mut self, alloc: Global, part: &Piece<'_>) -> Result<(), End<FormatFault>> {
        match part.number {
            1 => {
                take_unsigned(&mut self.at, part);
                Ok(())
            }
            2 => {
                take_message(alloc, &mut self.value, part)?;
                Ok(())
            }
            _ => Ok(()),
        }
    }

    fn finish(self, alloc: Global) -> Result<(ExprEntry, Option<IdFault>), AllocError> {
        let ExprEntryDraft { at, value } = self;
        let (value, fault) = finish_message(alloc, value)?;
        match value {
            Some(parts) => Ok((ExprEntry { at, parts }, fault)),
            None => {
                let parts = ExprParts {
                    value: ExprValue::Nothing,
                    flags: Seq::new(alloc),
                };
                Ok((ExprEntry { at, parts }, fault))
            }
        }
    }
}
