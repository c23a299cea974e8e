use crate::blocks::BlockAt;
use indexmap::IndexMap;
use sym_expr::{Layout, Program};
use uuid::Uuid;

/// A program and a layout, with the addresses of the intervals and of the blocks by their identifiers.
#[derive(Drop)]
pub struct Linker<'a> {
    pub program: &'a Program,
    pub layout: &'a Layout,
    pub places: IndexMap<Uuid, u64>,
    pub blocks: IndexMap<Uuid, BlockAt>,
}
