/// A module of a graph.
#[derive(Clone, Copy, Debug, PartialEq, Eq)]
pub struct ModuleId {
    pub(crate) index: usize,
}

/// A section of a graph.
#[derive(Clone, Copy, Debug, PartialEq, Eq)]
pub struct SectionId {
    pub(crate) index: usize,
}

/// An interval of a graph.
#[derive(Clone, Copy, Debug, PartialEq, Eq)]
pub struct IntervalId {
    pub(crate) index: usize,
}

/// A block of code or data of a graph.
#[derive(Clone, Copy, Debug, PartialEq, Eq)]
pub struct BlockId {
    pub(crate) index: usize,
}

/// A symbol of a graph.
#[derive(Clone, Copy, Debug, PartialEq, Eq)]
pub struct SymbolId {
    pub(crate) index: usize,
}

/// A proxy block of a graph.
#[derive(Clone, Copy, Debug, PartialEq, Eq)]
pub struct ProxyId {
    pub(crate) index: usize,
}

/// An edge of a graph. The identifier of a removed edge is never given again.
#[derive(Clone, Copy, Debug, PartialEq, Eq)]
pub struct EdgeId {
    pub(crate) index: usize,
}

/// A node of a graph.
#[derive(Clone, Copy, Debug, PartialEq, Eq)]
pub enum NodeRef {
    Ir,
    Module(ModuleId),
    Section(SectionId),
    Interval(IntervalId),
    Block(BlockId),
    Symbol(SymbolId),
    Proxy(ProxyId),
}

/// An end of an edge, or a vertex. The block is a code block.
#[derive(Clone, Copy, Debug, PartialEq, Eq)]
pub enum CfgEnd {
    Block(BlockId),
    Proxy(ProxyId),
}
