use crate::ids::{IdFault, Identifier};
use gr_base::Seq;
use gt_model::ExprValue;
use uuid::Uuid;

/// The draft of a symbol plus an offset.
#[derive(Drop)]
pub struct AddrConstDraft {
    pub offset: i64,
    pub symbol: Identifier,
}

/// The draft of a difference of symbols.
#[derive(Drop)]
pub struct AddrAddrDraft {
    pub scale: i64,
    pub offset: i64,
    pub first: Identifier,
    pub second: Identifier,
}

/// A symbol plus an offset.
#[derive(Drop)]
pub struct AddrConst {
    pub offset: i64,
    pub symbol: Option<Uuid>,
}

/// A difference of symbols.
#[derive(Drop)]
pub struct AddrAddr {
    pub scale: i64,
    pub offset: i64,
    pub first: Option<Uuid>,
    pub second: Option<Uuid>,
}

/// The draft of what an expression stands for.
#[derive(Drop)]
pub enum ValueDraft {
    Nothing,
    AddrConst(AddrConstDraft),
    AddrAddr(AddrAddrDraft),
}

/// The draft of an expression without its offset.
#[derive(Drop)]
pub struct ExprDraft {
    pub value: ValueDraft,
    pub flags: Seq<i32>,
}

/// An expression without its offset.
#[derive(Drop)]
pub struct ExprParts {
    pub value: ExprValue,
    pub flags: Seq<i32>,
}

/// The draft of an entry of the map from offsets to expressions.
#[derive(Drop)]
pub struct ExprEntryDraft {
    pub at: u64,
    pub value: Option<ExprDraft>,
}

/// An entry of that map.
#[derive(Drop)]
pub struct ExprEntry {
    pub at: u64,
    pub parts: ExprParts,
}

/// An expression without its offset, and the first identifier in it that is at fault.
#[derive(Drop)]
pub struct HeldExpr {
    pub parts: ExprParts,
    pub fault: Option<IdFault>,
}
