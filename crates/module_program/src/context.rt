//! A module and its patches, with what the parts of its program look up.

ghost use Rattle.std.specs.Prelude.{◌≡◌, ◌<◌, ◌^◌, length, sum_by, Contains, IfOk};
ghost use Rattle.std.specs.List.{AllByRecursion};

use crate::counts::insert_counts;
use crate::inserted::words_by_block;
use crate::loaded::blocks_by_id;
use crate::names::name_points;
use crate::symbols::symbol_targets;
use crate::target::shifted;
use aux_tables::ProgramTables;
use gr_base::{Seq, Text};
use gt_model::{ExprValue, Module};
use indexmap::IndexMap;
use std::alloc::{AllocError, Global};
use sym_expr::{PatchTable, PatchWord, Point, SymbolName, Target, Word};
use uuid::Uuid;

/// A module, its patches and its tables: what each symbol names before an offset is added, the points of
/// the names that the patches bring, and the words that are inserted in each block.
#[derive(Drop)]
pub(crate) struct Context<'a> {
    pub module: Module,
    pub patches: &'a PatchTable,
    pub tables: ProgramTables,
    pub symbols: IndexMap<Uuid, Target>,
    pub names: IndexMap<String, Point>,
    pub inserted: IndexMap<Uuid, Seq<(u64, Word)>>,
}

impl<'a> Context<'a> {
    ghost use Rattle.module_program.specs.Knowing.{Knows, KnowsNames, HasGoodWords};
    ghost use Rattle.sym_expr.specs.declared.patches.Insert.{Insert as InsertOf};

    /// What is looked up but for inserted words.
    fn with_names(
        alloc: Global,
        plain: Module,
        patches: &'a PatchTable,
        tables: ProgramTables,
    ) -> Result<Context<'a>, AllocError>
        requires { sum_by (λ (i : InsertOf). length i.body) patches.now.inserts < 2 ^ 64 }
        ensures known { IfOk result KnowsNames }
        ensures from { IfOk result (λ made. (made.module ≡ plain) × (made.patches.now ≡ patches.now) × (made.tables ≡ tables)) }
    {
        let counts = insert_counts(alloc, patches.inserts.as_slice())?;
        let blocks = blocks_by_id(alloc, &plain)?;
        let listed = plain.symbols.as_slice();
        let symbols = symbol_targets(alloc, &counts, &blocks, listed)?;
        let names = name_points(alloc, &plain, patches.functions.as_slice())?;
        let inserted = IndexMap::new(alloc);
        Ok(Context {
            module: plain,
            patches,
            tables,
            symbols,
            names,
            inserted,
        })
    }

    /// What is looked up of a module and its patches.
    pub(crate) fn new(
        alloc: Global,
        plain: Module,
        patches: &'a PatchTable,
        tables: ProgramTables,
    ) -> Result<Context<'a>, AllocError>
        requires few { sum_by (λ (i : InsertOf). length i.body) patches.now.inserts < 2 ^ 64 }
        requires good { AllByRecursion (HasGoodWords plain patches.now) patches.now.inserts }
        ensures known { IfOk result Knows }
        ensures from { IfOk result (λ made. (made.module ≡ plain) × (made.patches.now ≡ patches.now) × (made.tables ≡ tables)) }
    {
        let mut context = Context::with_names(alloc, plain, patches, tables)?;
        context.inserted = words_by_block(alloc, &context)?;
        Ok(context)
    }
}

impl Context<'_> {
    ghost use Rattle.module_program.specs.Knowing.{Knows, KnowsNames, NamesKnown, inserted_words};
    ghost use Rattle.sym_expr.specs.Program.{code_target, patched_word};
    ghost use Rattle.sym_expr.specs.TableOk.{IsNamed, new_names};
    ghost use Rattle.sym_expr.specs.Targets.{first_target, name_target, old_target, points_of_name};
    ghost use Rattle.sym_expr.specs.declared.target.Target.TheVariants.{Code};

    /// What a symbol of the module plus an offset names.
    pub(crate) fn old_target(&self, symbol: &Uuid, offset: i64) -> Target
        requires { KnowsNames self.now }
        ensures { result ≡ old_target self.now.module self.now.patches.now symbol.now offset }
    {
        match self.symbols.get(symbol) {
            Some(target) => shifted(offset, *target),
            None => Target::Undefined(*symbol),
        }
    }

    /// The point of a name of the patches.
    fn point_of(&self, name: &Text) -> Point
        requires known { KnowsNames self.now }
        requires there { Contains (new_names self.now.patches.now) name.now }
        ensures { Code result ≡ first_target (points_of_name self.now.module self.now.patches.now name.now) }
    {
        *self.names.get(name.as_str()).unwrap()
    }

    /// What a symbol of the module, or a name of the patches, plus an offset names.
    fn name_target(&self, symbol: &SymbolName, offset: i64) -> Target
        requires known { KnowsNames self.now }
        requires named { IsNamed self.now.module self.now.patches.now symbol.now }
        ensures { result ≡ name_target self.now.module self.now.patches.now symbol.now offset }
    {
        match symbol {
            SymbolName::Old(symbol) => self.old_target(symbol, offset),
            SymbolName::New(name) => Target::Code(self.point_of(name)),
        }
    }

    /// A word of the patches.
    pub(crate) fn patched_word(&self, word: &PatchWord) -> Word
        requires known { KnowsNames self.now }
        requires good { NamesKnown self.now.module self.now.patches.now word.now }
        ensures { result ≡ patched_word self.now.module self.now.patches.now word.now }
    {
        match &word.target {
            Some(target) => Word {
                word: word.word,
                target: Some(self.name_target(&target.symbol, target.offset)),
            },
            None => Word {
                word: word.word,
                target: None,
            },
        }
    }

    /// What an expression of a code block names.
    pub(crate) fn code_target(&self, value: ExprValue) -> Option<Target>
        requires { KnowsNames self.now }
        ensures { result ≡ code_target self.now.module self.now.patches.now value }
    {
        match value {
            ExprValue::AddrConst {
                offset,
                symbol: Some(symbol),
            } => Some(self.old_target(&symbol, offset)),
            _ => None,
        }
    }

    /// The words that are inserted in a block, by their offset in it.
    pub(crate) fn inserted_words(
        &self,
        alloc: Global,
        block: &Uuid,
    ) -> Result<Seq<(u64, Word)>, AllocError>
        requires { Knows self.now }
        ensures { IfOk result (λ words. words ≡ inserted_words self.now.module self.now.patches.now block.now) }
    {
        match self.inserted.get(block) {
            Some(words) => Seq::from_slice(alloc, words.as_slice()),
            None => Ok(Seq::new(alloc)),
        }
    }
}
