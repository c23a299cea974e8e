use crate::copying::CopyIn;
use gr_base::Seq;
use std::alloc::{AllocError, Global};
use uuid::Uuid;

/// A symbolic expression at an offset of its interval, with its attribute flags.
#[derive(Debug, Drop)]
pub struct Expr {
    pub at: u64,
    pub value: ExprValue,
    pub flags: Seq<i32>,
}

/// What an expression stands for.
#[derive(Clone, Copy, Debug, PartialEq, Eq)]
pub enum ExprValue {
    Nothing,
    /// A symbol plus an offset.
    AddrConst {
        offset: i64,
        symbol: Option<Uuid>,
    },
    /// The difference of two symbols, divided by the scale, plus an offset.
    AddrAddr {
        scale: i64,
        offset: i64,
        first: Option<Uuid>,
        second: Option<Uuid>,
    },
}

impl CopyIn for Expr {
    fn copy_in(&self, alloc: Global) -> Result<Expr, AllocError> {
        Ok(Expr {
            at: self.at,
            value: self.value,
            flags: Seq::from_slice(alloc, self.flags.as_slice())?,
        })
    }
}
