ghost use Rattle.std.specs.Prelude.{◌≡◌};
ghost use Rattle.gt_model.specs.Schema.{symbol_rows};
ghost use Rattle.gt_model.specs.Views.{symbol_value};
ghost use Rattle.gt_read.specs.Drafts.Views.{symbol_draft, after_value, after_referent, FinishesPayload};
ghost use Rattle.gt_read.specs.Faults.{piece_faults};
ghost use Rattle.gt_read.specs.Drafts.Answers.{piece, Starts, Steps, Finishes};

use crate::fault::FormatFault;
use crate::ids::{IdFault, Identifier, earlier};
use crate::message::Message;
use crate::module_drafts::{PayloadDraft, SymbolDraft};
use crate::pieces::{Carried, Piece};
use crate::slots::{take_flag, take_text};
use gr_base::{End, Text};
use gt_model::{Payload, Symbol};
use std::alloc::{AllocError, Global};

fn take_value(payload: &mut PayloadDraft, part: &Piece<'_>)
    ensures { payload.new ≡ after_value payload.old (piece part.now).carried }
{
    if let Carried::Number(value) = part.carried {
        *payload = PayloadDraft::Value(value);
    }
}

fn take_referent(payload: &mut PayloadDraft, part: &Piece<'_>)
    ensures { payload.new ≡ after_referent payload.old part.now.place (piece part.now).carried }
{
    if let Carried::Bytes(run) = &part.carried {
        *payload = PayloadDraft::Referent(Identifier::read(part.place, run.bytes));
    }
}

fn finish_payload(payload: PayloadDraft) -> (Payload, Option<IdFault>)
    ensures { FinishesPayload payload result.0 result.1 }
{
    match payload {
        PayloadDraft::Nothing => (Payload::Nothing, None),
        PayloadDraft::Value(value) => (Payload::Value(value), None),
        PayloadDraft::Referent(referent) => (Payload::Referent(referent.id), referent.fault()),
    }
}

impl Message for SymbolDraft {
    type Made = Symbol;

    ghost starts = { Starts symbol_rows symbol_draft };

    ghost steps = { Steps symbol_rows symbol_draft };

    ghost faults = { piece_faults symbol_rows };

    ghost finishes = { Finishes symbol_rows symbol_draft symbol_value };

    fn start(alloc: Global, place: u64) -> SymbolDraft {
        SymbolDraft {
            uuid: Identifier::missing(place),
            payload: PayloadDraft::Nothing,
            name: Text::new(alloc),
            at_end: false,
        }
    }

    fn take(&mut self, alloc: Global, part: &Piece<'_>) -> Result<(), End<FormatFault>> {
        match part.number {
            1 => {
                self.uuid.take(part);
                Ok(())
            }
            2 => {
                take_value(&mut self.payload, part);
                Ok(())
            }
            3 => {
                take_text(alloc, &mut self.name, part)?;
                Ok(())
            }
            5 => {
                take_referent(&mut self.payload, part);
                Ok(())
            }
            6 => {
                take_flag(&mut self.at_end, part);
                Ok(())
            }
            _ => Ok(()),
        }
    }

    fn finish(self, _: Global) -> Result<(Symbol, Option<IdFault>), AllocError> {
        let SymbolDraft {
            uuid,
            payload,
            name,
            at_end,
        } = self;
        let (payload, worst) = finish_payload(payload);
        let fault = earlier(uuid.fault(), worst);
        let made = Symbol {
            uuid: uuid.id,
            name,
            at_end,
            payload,
        };
        Ok((made, fault))
    }
}
