//! A module with what patch text looks up in it.

ghost use Rattle.std.specs.Prelude.{◌≡◌, IfOk};
ghost use Rattle.patch_lines.specs.Indexed.{Knows};

use crate::blocks::blocks_by_id;
use crate::symbols::{SymbolUse, payloads_by_id, uses_by_name};
use gr_base::Seq;
use gt_model::{Block, Module, Payload};
use indexmap::IndexMap;
use std::alloc::{AllocError, Global};
use uuid::Uuid;

/// A module, its symbols by name and by identifier, and its blocks of loaded sections.
#[derive(Drop)]
pub struct Index {
    pub(crate) module: Module,
    pub(crate) names: IndexMap<String, Seq<SymbolUse>>,
    pub(crate) symbols: IndexMap<Uuid, Payload>,
    pub(crate) blocks: IndexMap<Uuid, Block>,
}

impl Index {
    /// The index of a module.
    pub fn new(alloc: Global, module: Module) -> Result<Index, AllocError>
        ensures knows { IfOk result Knows }
        ensures of { IfOk result (λ index. index.«module» ≡ «module») }
    {
        let names = uses_by_name(alloc, module.symbols.as_slice())?;
        let symbols = payloads_by_id(alloc, module.symbols.as_slice())?;
        let blocks = blocks_by_id(alloc, &module)?;
        Ok(Index {
            module,
            names,
            symbols,
            blocks,
        })
    }
}
