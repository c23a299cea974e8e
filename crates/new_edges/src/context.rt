//! A module and its patches, with what the words of the patches look up.

ghost use Rattle.std.specs.Prelude.{◌≡◌, IfOk};

use crate::names::name_starts;
use crate::new_end::Branch;
use crate::rows::branch_label;
use crate::symbols::Loaded;
use a64_inst::is_branch;
use gt_model::Module;
use indexmap::IndexMap;
use std::alloc::{AllocError, Global};
use sym_expr::{PatchTable, PatchWord, SymbolName};
use uuid::Uuid;

/// A module and its patches, with the code blocks at whose starts the module's symbols are, and the
/// names that the patches bring.
#[derive(Drop)]
pub(crate) struct Context<'a> {
    pub module: &'a Module,
    pub patches: &'a PatchTable,
    pub symbols: IndexMap<Uuid, Option<Uuid>>,
    pub names: IndexMap<String, Uuid>,
}

impl<'a> Context<'a> {
    ghost use Rattle.new_edges.specs.Knowing.{Knows};

    pub(crate) fn new(
        alloc: Global,
        module: &'a Module,
        patches: &'a PatchTable,
    ) -> Result<Context<'a>, AllocError>
        ensures known { IfOk result Knows }
        ensures from { IfOk result (λ made. (made.module.now ≡ «module».now) × (made.patches.now ≡ patches.now)) }
    {
        let loaded = Loaded::new(alloc, module)?;
        let symbols = loaded.symbol_starts(alloc)?;
        let names = name_starts(alloc, module, patches.functions.as_slice())?;
        Ok(Context {
            module,
            patches,
            symbols,
            names,
        })
    }
}

impl Context<'_> {
    ghost use Rattle.edge_repair.specs.Ends.{name_start};
    ghost use Rattle.new_edges.specs.Knowing.{Knows};
    ghost use Rattle.new_edges.specs.NewEnds.{branch_of};

    /// The code block at whose start a symbol of the module, or a name of the patches, is.
    fn name_start(&self, symbol: &SymbolName) -> Option<Uuid>
        requires { Knows self.now }
        ensures { result ≡ name_start self.now.module.now self.now.patches.now symbol.now }
    {
        match symbol {
            SymbolName::Old(id) => match self.symbols.get(id) {
                Some(start) => *start,
                None => None,
            },
            SymbolName::New(name) => self.names.get(name.as_str()).copied(),
        }
    }

    /// Where a word of the patches leads, if it is a direct branch or call to the start of a block.
    pub(crate) fn branch_of(&self, word: &PatchWord) -> Option<Branch>
        requires { Knows self.now }
        ensures { result ≡ branch_of self.now.module.now self.now.patches.now word.now }
    {
        if !is_branch(word.word) {
            return None;
        }
        match &word.target {
            Some(target) => match self.name_start(&target.symbol) {
                Some(start) => Some(Branch {
                    label: branch_label(word.word),
                    target: start,
                }),
                None => None,
            },
            None => None,
        }
    }
}
