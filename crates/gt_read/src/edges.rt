ghost use Rattle.gt_model.specs.Schema.{label_rows, edge_rows, cfg_rows};
ghost use Rattle.gt_model.specs.Views.{label_value, edge_value, cfg_value};
ghost use Rattle.gt_read.specs.Drafts.Views.{label_draft, edge_draft, cfg_draft};
ghost use Rattle.gt_read.specs.Faults.{piece_faults};
ghost use Rattle.gt_read.specs.Drafts.Answers.{Starts, Steps, Finishes};

use crate::children::{Children, finish_message, take_child, take_ids, take_message};
use crate::edge_drafts::{CfgDraft, EdgeDraft};
use crate::fault::FormatFault;
use crate::ids::{IdFault, Identifier, earlier};
use crate::message::Message;
use crate::pieces::Piece;
use crate::slots::{take_flag, take_signed32};
use gr_base::End;
use gt_model::{Cfg, Edge, Label};
use std::alloc::{AllocError, Global};

impl Message for Label {
    type Made = Label;

    ghost starts = { Starts label_rows label_draft };

    ghost steps = { Steps label_rows label_draft };

    ghost faults = { piece_faults label_rows };

    ghost finishes = { Finishes label_rows label_draft label_value };

    fn start(_: Global, _: u64) -> Label {
        Label {
            conditional: false,
            direct: false,
            kind: 0,
        }
    }

    fn take(&mut self, _: Global, part: &Piece<'_>) -> Result<(), End<FormatFault>> {
        match part.number {
            1 => {
                take_flag(&mut self.conditional, part);
                Ok(())
            }
            2 => {
                take_flag(&mut self.direct, part);
                Ok(())
            }
            3 => {
                take_signed32(&mut self.kind, part);
                Ok(())
            }
            _ => Ok(()),
        }
    }

    fn finish(self, _: Global) -> Result<(Label, Option<IdFault>), AllocError> {
        Ok((self, None))
    }
}

impl Message for EdgeDraft {
    type Made = Edge;

    ghost starts = { Starts edge_rows edge_draft };

    ghost steps = { Steps edge_rows edge_draft };

    ghost faults = { piece_faults edge_rows };

    ghost finishes = { Finishes edge_rows edge_draft edge_value };

    fn start(_: Global, place: u64) -> EdgeDraft {
        EdgeDraft {
            source: Identifier::missing(place),
            target: Identifier::missing(place),
            label: None,
        }
    }

    fn take(&mut self, alloc: Global, part: &Piece<'_>) -> Result<(), End<FormatFault>> {
        match part.number {
            1 => {
                self.source.take(part);
                Ok(())
            }
            2 => {
                self.target.take(part);
                Ok(())
            }
            5 => {
                take_message(alloc, &mut self.label, part)?;
                Ok(())
            }
            _ => Ok(()),
        }
    }

    fn finish(self, alloc: Global) -> Result<(Edge, Option<IdFault>), AllocError> {
        let EdgeDraft {
            source,
            target,
            label,
        } = self;
        let (label, worst) = finish_message(alloc, label)?;
        let fault = earlier(source.fault(), earlier(target.fault(), worst));
        let made = Edge {
            source: source.id,
            target: target.id,
            label,
        };
        Ok((made, fault))
    }
}

impl Message for CfgDraft {
    type Made = Cfg;

    ghost starts = { Starts cfg_rows cfg_draft };

    ghost steps = { Steps cfg_rows cfg_draft };

    ghost faults = { piece_faults cfg_rows };

    ghost finishes = { Finishes cfg_rows cfg_draft cfg_value };

    fn start(alloc: Global, _: u64) -> CfgDraft {
        CfgDraft {
            edges: Children::new(alloc),
            vertices: Children::new(alloc),
        }
    }

    fn take(&mut self, alloc: Global, part: &Piece<'_>) -> Result<(), End<FormatFault>> {
        match part.number {
            2 => {
                take_child::<EdgeDraft>(alloc, &mut self.edges, part)?;
                Ok(())
            }
            3 => {
                take_ids(alloc, &mut self.vertices, part)?;
                Ok(())
            }
            _ => Ok(()),
        }
    }

    fn finish(self, _: Global) -> Result<(Cfg, Option<IdFault>), AllocError> {
        let CfgDraft { edges, vertices } = self;
        let fault = earlier(edges.fault, vertices.fault);
        let made = Cfg {
            edges: edges.items,
            vertices: vertices.items,
        };
        Ok((made, fault))
    }
}
