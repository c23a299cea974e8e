ghost use Rattle.gt_model.specs.Schema.{ir_rows};
ghost use Rattle.gt_model.specs.Views.{ir_value};
ghost use Rattle.gt_read.specs.Drafts.Views.{ir_draft};
ghost use Rattle.gt_read.specs.Faults.{piece_faults};
ghost use Rattle.gt_read.specs.Drafts.Answers.{Starts, Steps, Finishes};

use crate::children::{Children, finish_message, take_child, take_message};
use crate::fault::FormatFault;
use crate::ids::{IdFault, Identifier, earlier};
use crate::message::Message;
use crate::module_drafts::{IrDraft, ModuleDraft};
use crate::pieces::Piece;
use crate::slots::take_unsigned32;
use crate::tables::{finish_tables, take_table};
use gr_base::End;
use gt_model::Ir;
use std::alloc::{AllocError, Global};
use std::collections::BTreeMap;

impl Message for IrDraft {
    type Made = Ir;

    ghost starts = { Starts ir_rows ir_draft };

    ghost steps = { Steps ir_rows ir_draft };

    ghost faults = { piece_faults ir_rows };

    ghost finishes = { Finishes ir_rows ir_draft ir_value };

    fn start(alloc: Global, place: u64) -> IrDraft {
        IrDraft {
            uuid: Identifier::missing(place),
            modules: Children::new(alloc),
            aux: BTreeMap::new(alloc),
            version: 0,
            cfg: None,
        }
    }

    fn take(&mut self, alloc: Global, part: &Piece<'_>) -> Result<(), End<FormatFault>> {
        match part.number {
            1 => {
                self.uuid.take(part);
                Ok(())
            }
            3 => {
                take_child::<ModuleDraft>(alloc, &mut self.modules, part)?;
                Ok(())
            }
            5 => {
                take_table(alloc, &mut self.aux, part)?;
                Ok(())
            }
            6 => {
                take_unsigned32(&mut self.version, part);
                Ok(())
            }
            7 => {
                take_message(alloc, &mut self.cfg, part)?;
                Ok(())
            }
            _ => Ok(()),
        }
    }

    fn finish(self, alloc: Global) -> Result<(Ir, Option<IdFault>), AllocError> {
        let IrDraft {
            uuid,
            modules,
            aux,
            version,
            cfg,
        } = self;
        let aux = finish_tables(alloc, aux)?;
        let (cfg, worst) = finish_message(alloc, cfg)?;
        let fault = earlier(uuid.fault(), earlier(modules.fault, worst));
        let made = Ir {
            uuid: uuid.id,
            modules: modules.items,
            aux,
            version,
            cfg,
        };
        Ok((made, fault))
    }
}
