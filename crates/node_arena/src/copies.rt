ghost use Rattle.std.specs.Prelude.{◌≡◌, IfOk};
ghost use Rattle.node_arena.specs.Sound.{sound};
ghost use Rattle.node_arena.specs.Stored.{arenas_of, Holds};

use crate::arena::Arena;
use crate::ids::NodeRef;
use crate::index::indexed;
use crate::nodes::{IntervalNode, ModuleNode, SectionNode, SymbolNode};
use gr_base::{Bytes, End, Seq, Text};
use gt_model::{CopyIn, copy_all};
use indexmap::IndexMap;
use std::alloc::{AllocError, Global};
use uuid::Uuid;

impl CopyIn for ModuleNode {
    fn copy_in(&self, alloc: Global) -> Result<ModuleNode, AllocError> {
        Ok(ModuleNode {
            uuid: self.uuid,
            binary_path: Text::from_str(alloc, self.binary_path.as_str())?,
            preferred_addr: self.preferred_addr,
            rebase_delta: self.rebase_delta,
            file_format: self.file_format,
            isa: self.isa,
            name: Text::from_str(alloc, self.name.as_str())?,
            symbols: Seq::from_slice(alloc, self.symbols.as_slice())?,
            sections: Seq::from_slice(alloc, self.sections.as_slice())?,
            proxies: Seq::from_slice(alloc, self.proxies.as_slice())?,
            aux: copy_all(alloc, &self.aux)?,
            entry: self.entry,
            byte_order: self.byte_order,
        })
    }
}

impl CopyIn for SectionNode {
    fn copy_in(&self, alloc: Global) -> Result<SectionNode, AllocError> {
        Ok(SectionNode {
            uuid: self.uuid,
            name: Text::from_str(alloc, self.name.as_str())?,
            flags: Seq::from_slice(alloc, self.flags.as_slice())?,
            intervals: Seq::from_slice(alloc, self.intervals.as_slice())?,
            module: self.module,
        })
    }
}

impl CopyIn for IntervalNode {
    fn copy_in(&self, alloc: Global) -> Result<IntervalNode, AllocError> {
        Ok(IntervalNode {
            uuid: self.uuid,
            has_address: self.has_address,
            address: self.address,
            size: self.size,
            contents: Bytes::from_slice(alloc, self.contents.as_slice())?,
            exprs: copy_all(alloc, &self.exprs)?,
            blocks: Seq::from_slice(alloc, self.blocks.as_slice())?,
            section: self.section,
        })
    }
}

impl CopyIn for SymbolNode {
    fn copy_in(&self, alloc: Global) -> Result<SymbolNode, AllocError> {
        Ok(SymbolNode {
            uuid: self.uuid,
            name: Text::from_str(alloc, self.name.as_str())?,
            at_end: self.at_end,
            payload: self.payload,
            module: self.module,
        })
    }
}

fn copy_nodes<T: CopyIn>(alloc: Global, nodes: &[T]) -> Result<Vec<T>, AllocError>
    ensures { IfOk result (λ copies. copies.items ≡ nodes.now) }
{
    let mut copies = Vec::new(alloc);
    for node in nodes {
        copies.push(node.copy_in(alloc)?)?;
    }
    Ok(copies)
}

/// The same nodes at the same places, in memory of their own.
pub fn copy_arena(alloc: Global, arena: &Arena) -> Result<Arena, AllocError>
    ensures { IfOk result (λ copy. arenas_of copy ≡ arenas_of arena.now) }
{
    Ok(Arena {
        uuid: arena.uuid,
        version: arena.version,
        aux: copy_all(alloc, &arena.aux)?,
        modules: copy_nodes(alloc, arena.modules.as_slice())?,
        sections: copy_nodes(alloc, arena.sections.as_slice())?,
        intervals: copy_nodes(alloc, arena.intervals.as_slice())?,
        blocks: Vec::from_slice(alloc, arena.blocks.as_slice())?,
        symbols: copy_nodes(alloc, arena.symbols.as_slice())?,
        proxies: Vec::from_slice(alloc, arena.proxies.as_slice())?,
        edges: Vec::from_slice(alloc, arena.edges.as_slice())?,
        live: Vec::from_slice(alloc, arena.live.as_slice())?,
        vertices: Vec::from_slice(alloc, arena.vertices.as_slice())?,
        has_cfg: arena.has_cfg,
    })
}

/// The index of an arena whose nodes have distinct identifiers.
pub fn index_again(alloc: Global, arena: &Arena) -> Result<IndexMap<Uuid, NodeRef>, AllocError>
    requires { sound (arenas_of arena.now) }
    ensures { IfOk result (λ index. Holds arena.now index) }
{
    match indexed(alloc, arena) {
        Ok(index) => Ok(index),
        Err(End::Memory) => Err(AllocError),
        Err(End::Fault(_)) => unreachable!(),
    }
}
