//! The code blocks at whose starts symbols are.

ghost use Rattle.std.specs.Prelude.{◌≡◌, map, IfOk};
ghost use Rattle.std.specs.Option.{option_map};
ghost use Rattle.std.specs.Str.{bytes_eq};
ghost use Rattle.indexmap.specs.IndexMap.{get};

use crate::index::index_of;
use crate::loaded::{blocks_by_id, id_of, is_code};
use gt_model::{Block, Module, Payload, Symbol};
use indexmap::IndexMap;
use std::alloc::{AllocError, Global};
use uuid::Uuid;

/// A module, with the blocks of its loaded sections by their identifiers.
#[derive(Drop)]
pub(crate) struct Loaded<'a> {
    pub module: &'a Module,
    pub blocks: IndexMap<Uuid, Block>,
}

impl<'a> Loaded<'a> {
    ghost use Rattle.new_edges.specs.Loaded.{KnowsBlocks};

    pub(crate) fn new(alloc: Global, module: &'a Module) -> Result<Loaded<'a>, AllocError>
        ensures known { IfOk result KnowsBlocks }
        ensures from { IfOk result (λ made. made.module.now ≡ «module».now) }
    {
        let blocks = blocks_by_id(alloc, module)?;
        Ok(Loaded { module, blocks })
    }
}

impl Loaded<'_> {
    ghost use Rattle.edge_repair.specs.Ends.{code_block_id, symbol_start};
    ghost use Rattle.new_edges.specs.Loaded.{KnowsBlocks, symbol_entry, symbol_of};

    /// The block of an identifier, if it is code.
    fn code_block(&self, id: &Uuid) -> Option<Uuid>
        requires { KnowsBlocks self.now }
        ensures { result ≡ code_block_id self.now.module.now id.now }
    {
        match self.blocks.get(id) {
            Some(block) if is_code(block) => Some(id_of(block)),
            _ => None,
        }
    }

    /// The code block at whose start a symbol is.
    fn symbol_start(&self, symbol: &Symbol) -> Option<Uuid>
        requires { KnowsBlocks self.now }
        ensures { result ≡ symbol_start self.now.module.now symbol.now }
    {
        if symbol.at_end {
            return None;
        }
        match symbol.payload {
            Payload::Nothing | Payload::Value(_) => None,
            Payload::Referent(id) => self.code_block(&id),
        }
    }

    fn symbol_entries(&self, alloc: Global) -> Result<Vec<(Uuid, Option<Uuid>)>, AllocError>
        requires { KnowsBlocks self.now }
        ensures { IfOk result (λ entries. entries.items ≡ map (symbol_entry self.now.module.now) self.now.module.now.symbols) }
    {
        let mut entries = Vec::new(alloc);
        for symbol in self.module.symbols.as_slice() {
            let start = self.symbol_start(symbol);
            entries.push((symbol.uuid, start))?;
        }
        Ok(entries)
    }

    /// The code block at whose start each symbol is, by the symbol's identifier.
    pub(crate) fn symbol_starts(
        &self,
        alloc: Global,
    ) -> Result<IndexMap<Uuid, Option<Uuid>>, AllocError>
        requires { KnowsBlocks self.now }
        ensures { IfOk result (λ index. (id : _) → get bytes_eq index id ≡ option_map (symbol_start self.now.module.now) (symbol_of id self.now.module.now.symbols)) }
    {
        let entries = self.symbol_entries(alloc)?;
        let keyed = entries.as_slice();
        let index = index_of(alloc, keyed)?;
        Ok(index)
    }
}
