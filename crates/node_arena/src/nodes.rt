use crate::ids::{BlockId, CfgEnd, IntervalId, ModuleId, ProxyId, SectionId, SymbolId};
use gr_base::{Bytes, Seq, Text};
use gt_model::{Aux, Body, Expr, Label};
use uuid::Uuid;

/// A module, with the nodes in it.
#[derive(Debug, Drop)]
pub struct ModuleNode {
    pub uuid: Uuid,
    pub binary_path: Text,
    pub preferred_addr: u64,
    pub rebase_delta: i64,
    pub file_format: i32,
    pub isa: i32,
    pub name: Text,
    pub symbols: Seq<SymbolId>,
    pub sections: Seq<SectionId>,
    pub proxies: Seq<ProxyId>,
    pub aux: Seq<Aux>,
    pub entry: Option<BlockId>,
    pub byte_order: i32,
}

/// A section, with its intervals.
#[derive(Debug, Drop)]
pub struct SectionNode {
    pub uuid: Uuid,
    pub name: Text,
    pub flags: Seq<i32>,
    pub intervals: Seq<IntervalId>,
    pub module: ModuleId,
}

/// An interval, with its blocks. Its expressions name symbols by their identifiers.
#[derive(Debug, Drop)]
pub struct IntervalNode {
    pub uuid: Uuid,
    pub has_address: bool,
    pub address: u64,
    pub size: u64,
    pub contents: Bytes,
    pub exprs: Seq<Expr>,
    pub blocks: Seq<BlockId>,
    pub section: SectionId,
}

/// A block. Its body is never bare.
#[derive(Clone, Copy, Debug, PartialEq, Eq)]
pub struct BlockNode {
    pub offset: u64,
    pub body: Body,
    pub interval: IntervalId,
}

/// A symbol.
#[derive(Debug, Drop)]
pub struct SymbolNode {
    pub uuid: Uuid,
    pub name: Text,
    /// Whether it stands for the end of its referent and not for the start.
    pub at_end: bool,
    pub payload: NodePayload,
    pub module: ModuleId,
}

/// What a symbol stands for.
#[derive(Clone, Copy, Debug, PartialEq, Eq)]
pub enum NodePayload {
    Nothing,
    /// A number.
    Value(u64),
    Block(BlockId),
    Proxy(ProxyId),
}

/// A proxy block, and its module.
#[derive(Clone, Copy, Debug, PartialEq, Eq)]
pub struct ProxyNode {
    pub uuid: Uuid,
    pub module: ModuleId,
}

/// An edge from one vertex to another.
#[derive(Clone, Copy, Debug, PartialEq, Eq)]
pub struct EdgeNode {
    pub source: CfgEnd,
    pub target: CfgEnd,
    pub label: Option<Label>,
}
