/// How much there is of everything: the nodes of the module, the edges of the IR, the tables of the
/// module, and those of them whose type isn't parsed.
#[derive(Clone, Copy, Debug, PartialEq, Eq)]
pub struct CheckReport {
    pub sections: u64,
    pub intervals: u64,
    pub blocks: u64,
    pub symbols: u64,
    pub exprs: u64,
    pub edges: u64,
    pub tables: u64,
    pub opaque: u64,
}
