use crate::copying::{CopyIn, copy_all};
use crate::exprs::Expr;
use gr_base::{Bytes, Seq};
use std::alloc::{AllocError, Global};
use uuid::Uuid;

/// A run of bytes that stay together, with the blocks and the expressions in it.
///
/// The contents may be shorter than the size. The expressions ascend by their offset.
#[derive(Debug, Drop)]
pub struct Interval {
    pub uuid: Uuid,
    pub blocks: Seq<Block>,
    pub exprs: Seq<Expr>,
    pub has_address: bool,
    pub address: u64,
    pub size: u64,
    pub contents: Bytes,
}

/// A part of an interval, at an offset.
#[derive(Clone, Copy, Debug, PartialEq, Eq)]
pub struct Block {
    pub offset: u64,
    pub body: Body,
}

/// What a block is.
#[derive(Clone, Copy, Debug, PartialEq, Eq)]
pub enum Body {
    /// The file says nothing of it.
    Bare,
    Code {
        uuid: Uuid,
        size: u64,
        decode_mode: u64,
    },
    Data {
        uuid: Uuid,
        size: u64,
    },
}

impl CopyIn for Interval {
    fn copy_in(&self, alloc: Global) -> Result<Interval, AllocError> {
        Ok(Interval {
            uuid: self.uuid,
            blocks: Seq::from_slice(alloc, self.blocks.as_slice())?,
            exprs: copy_all(alloc, &self.exprs)?,
            has_address: self.has_address,
            address: self.address,
            size: self.size,
            contents: Bytes::from_slice(alloc, self.contents.as_slice())?,
        })
    }
}
