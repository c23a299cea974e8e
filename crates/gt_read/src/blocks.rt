ghost use Rattle.std.specs.Prelude.{IfOk};
ghost use Rattle.gt_model.specs.Schema.{code_rows, data_rows, block_rows};
ghost use Rattle.gt_model.specs.Views.{block_value};
ghost use Rattle.gt_read.specs.Drafts.Views.{code_draft, data_draft, block_draft, code_parts, data_parts, code_of, data_of, FinishesBody};
ghost use Rattle.gt_read.specs.declared.block_drafts.BodyDraft.TheVariants as bodies;
ghost use Rattle.gt_read.specs.Faults.{piece_faults};
ghost use Rattle.gt_read.specs.Drafts.Answers.{Starts, Steps, Finishes};

use crate::block_drafts::{BlockDraft, BodyDraft, CodeDraft, CodeParts, DataDraft, DataParts};
use crate::children::{OneOf, take_member};
use crate::fault::FormatFault;
use crate::ids::{IdFault, Identifier};
use crate::message::Message;
use crate::pieces::Piece;
use crate::slots::take_unsigned;
use gr_base::End;
use gt_model::{Block, Body};
use std::alloc::{AllocError, Global};

impl OneOf<CodeDraft> for BodyDraft {
    ghost member = { code_of };

    ghost made = { bodies.Code };

    fn unset() -> BodyDraft {
        BodyDraft::Bare
    }

    fn into_member(self) -> Option<CodeDraft> {
        match self {
            BodyDraft::Code(draft) => Some(draft),
            BodyDraft::Bare | BodyDraft::Data(_) => None,
        }
    }

    fn of(message: CodeDraft) -> BodyDraft {
        BodyDraft::Code(message)
    }
}

impl OneOf<DataDraft> for BodyDraft {
    ghost member = { data_of };

    ghost made = { bodies.Data };

    fn unset() -> BodyDraft {
        BodyDraft::Bare
    }

    fn into_member(self) -> Option<DataDraft> {
        match self {
            BodyDraft::Data(draft) => Some(draft),
            BodyDraft::Bare | BodyDraft::Code(_) => None,
        }
    }

    fn of(message: DataDraft) -> BodyDraft {
        BodyDraft::Data(message)
    }
}

fn finish_body(alloc: Global, body: BodyDraft) -> Result<(Body, Option<IdFault>), AllocError>
    ensures { IfOk result (λ made. FinishesBody body made.0 made.1) }
{
    match body {
        BodyDraft::Bare => Ok((Body::Bare, None)),
        BodyDraft::Code(draft) => {
            let (made, fault) = draft.finish(alloc)?;
            let body = Body::Code {
                uuid: made.uuid,
                size: made.size,
                decode_mode: made.decode_mode,
            };
            Ok((body, fault))
        }
        BodyDraft::Data(draft) => {
            let (made, fault) = draft.finish(alloc)?;
            let body = Body::Data {
                uuid: made.uuid,
                size: made.size,
            };
            Ok((body, fault))
        }
    }
}

impl Message for CodeDraft {
    type Made = CodeParts;

    ghost starts = { Starts code_rows code_draft };

    ghost steps = { Steps code_rows code_draft };

    ghost faults = { piece_faults code_rows };

    ghost finishes = { Finishes code_rows code_draft code_parts };

    fn start(_: Global, place: u64) -> CodeDraft {
        CodeDraft {
            uuid: Identifier::missing(place),
            size: 0,
            decode_mode: 0,
        }
    }

    fn take(&mut self, _: Global, part: &Piece<'_>) -> Result<(), End<FormatFault>> {
        match part.number {
            1 => {
                self.uuid.take(part);
                Ok(())
            }
            3 => {
                take_unsigned(&mut self.size, part);
                Ok(())
            }
            4 => {
                take_unsigned(&mut self.decode_mode, part);
                Ok(())
            }
            _ => Ok(()),
        }
    }

    fn finish(self, _: Global) -> Result<(CodeParts, Option<IdFault>), AllocError> {
        let fault = self.uuid.fault();
        let made = CodeParts {
            uuid: self.uuid.id,
            size: self.size,
            decode_mode: self.decode_mode,
        };
        Ok((made, fault))
    }
}

impl Message for DataDraft {
    type Made = DataParts;

    ghost starts = { Starts data_rows data_draft };

    ghost steps = { Steps data_rows data_draft };

    ghost faults = { piece_faults data_rows };

    ghost finishes = { Finishes data_rows data_draft data_parts };

    fn start(_: Global, place: u64) -> DataDraft {
        DataDraft {
            uuid: Identifier::missing(place),
            size: 0,
        }
    }

    fn take(&mut self, _: Global, part: &Piece<'_>) -> Result<(), End<FormatFault>> {
        match part.number {
            1 => {
                self.uuid.take(part);
                Ok(())
            }
            3 => {
                take_unsigned(&mut self.size, part);
                Ok(())
            }
            _ => Ok(()),
        }
    }

    fn finish(self, _: Global) -> Result<(DataParts, Option<IdFault>), AllocError> {
        let fault = self.uuid.fault();
        let made = DataParts {
            uuid: self.uuid.id,
            size: self.size,
        };
        Ok((made, fault))
    }
}

impl Message for BlockDraft {
    type Made = Block;

    ghost starts = { Starts block_rows block_draft };

    ghost steps = { Steps block_rows block_draft };

    ghost faults = { piece_faults block_rows };

    ghost finishes = { Finishes block_rows block_draft block_value };

    fn start(_: Global, _: u64) -> BlockDraft {
        BlockDraft {
            offset: 0,
            body: BodyDraft::Bare,
        }
    }

    fn take(&mut self, alloc: Global, part: &Piece<'_>) -> Result<(), End<FormatFault>> {
        match part.number {
            1 => {
                take_unsigned(&mut self.offset, part);
                Ok(())
            }
            2 => {
                take_member::<CodeDraft, BodyDraft>(alloc, &mut self.body, part)?;
                Ok(())
            }
            3 => {
                take_member::<DataDraft, BodyDraft>(alloc, &mut self.body, part)?;
                Ok(())
            }
            _ => Ok(()),
        }
    }

    fn finish(self, alloc: Global) -> Result<(Block, Option<IdFault>), AllocError> {
        let BlockDraft { offset, body } = self;
        let (body, fault) = finish_body(alloc, body)?;
        Ok((Block { offset, body }, fault))
    }
}
