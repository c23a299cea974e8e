ghost use Rattle.gt_model.specs.Schema.{interval_rows};
ghost use Rattle.gt_model.specs.Views.{interval_value};
ghost use Rattle.gt_read.specs.Drafts.Views.{interval_draft};
ghost use Rattle.gt_read.specs.Faults.{piece_faults};
ghost use Rattle.gt_read.specs.Drafts.Answers.{Starts, Steps, Finishes};

use crate::block_drafts::{BlockDraft, IntervalDraft};
use crate::children::{Children, take_child};
use crate::exprs::{finish_exprs, take_expr};
use crate::fault::FormatFault;
use crate::ids::{IdFault, Identifier, earlier};
use crate::message::Message;
use crate::pieces::Piece;
use crate::slots::{take_bytes, take_flag, take_unsigned};
use gr_base::{Bytes, End};
use gt_model::Interval;
use std::alloc::{AllocError, Global};
use std::collections::BTreeMap;

impl Message for IntervalDraft {
    type Made = Interval;

    ghost starts = { Starts interval_rows interval_draft };

    ghost steps = { Steps interval_rows interval_draft };

    ghost faults = { piece_faults interval_rows };

    ghost finishes = { Finishes interval_rows interval_draft interval_value };

    fn start(alloc: Global, place: u64) -> IntervalDraft {
        IntervalDraft {
            uuid: Identifier::missing(place),
            blocks: Children::new(alloc),
            exprs: BTreeMap::new(alloc),
            has_address: false,
            address: 0,
            size: 0,
            contents: Bytes::new(alloc),
        }
    }

    fn take(&mut self, alloc: Global, part: &Piece<'_>) -> Result<(), End<FormatFault>> {
        match part.number {
            1 => {
                self.uuid.take(part);
                Ok(())
            }
            2 => {
                take_child::<BlockDraft>(alloc, &mut self.blocks, part)?;
                Ok(())
            }
            3 => {
                take_expr(alloc, &mut self.exprs, part)?;
                Ok(())
            }
            4 => {
                take_flag(&mut self.has_address, part);
                Ok(())
            }
            5 => {
                take_unsigned(&mut self.address, part);
                Ok(())
            }
            6 => {
                take_unsigned(&mut self.size, part);
                Ok(())
            }
            7 => {
                take_bytes(alloc, &mut self.contents, part)?;
                Ok(())
            }
            _ => Ok(()),
        }
    }

    fn finish(self, alloc: Global) -> Result<(Interval, Option<IdFault>), AllocError> {
        let IntervalDraft {
            uuid,
            blocks,
            exprs,
            has_address,
            address,
            size,
            contents,
        } = self;
        let (exprs, worst) = finish_exprs(alloc, exprs)?;
        let fault = earlier(uuid.fault(), earlier(blocks.fault, worst));
        let made = Interval {
            uuid: uuid.id,
            blocks: blocks.items,
            exprs,
            has_address,
            address,
            size,
            contents,
        };
        Ok((made, fault))
    }
}
