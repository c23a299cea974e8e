use crate::children::Children;
use crate::expr_drafts::HeldExpr;
use crate::ids::Identifier;
use gr_base::Bytes;
use gt_model::Block;
use std::collections::BTreeMap;
use uuid::Uuid;

/// The draft of a code block.
#[derive(Drop)]
pub struct CodeDraft {
    pub uuid: Identifier,
    pub size: u64,
    pub decode_mode: u64,
}

/// The draft of a data block.
#[derive(Drop)]
pub struct DataDraft {
    pub uuid: Identifier,
    pub size: u64,
}

/// A code block.
#[derive(Drop)]
pub struct CodeParts {
    pub uuid: Uuid,
    pub size: u64,
    pub decode_mode: u64,
}

/// A data block.
#[derive(Drop)]
pub struct DataParts {
    pub uuid: Uuid,
    pub size: u64,
}

/// The draft of what a block is.
#[derive(Drop)]
pub enum BodyDraft {
    Bare,
    Code(CodeDraft),
    Data(DataDraft),
}

/// The draft of a block.
#[derive(Drop)]
pub struct BlockDraft {
    pub offset: u64,
    pub body: BodyDraft,
}

/// The draft of an interval.
#[derive(Drop)]
pub struct IntervalDraft {
    pub uuid: Identifier,
    pub blocks: Children<Block>,
    pub exprs: BTreeMap<u64, HeldExpr>,
    pub has_address: bool,
    pub address: u64,
    pub size: u64,
    pub contents: Bytes,
}
