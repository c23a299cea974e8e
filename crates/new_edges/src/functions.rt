//! The edges from the blocks of functions, and the identifiers of these blocks.

ghost use Rattle.std.specs.Prelude.{◌≡◌, ◌<◌, ◌^◌, ◌+◌, ◌++◌, List, ◌∷◌, [], None, Some, true, nat_lt, if◌then◌else◌, length, IfOk, OnOk};
ghost use Rattle.std.specs.List.{flat_map};
ghost use Rattle.std.specs.Option.{option_to_list};
ghost use Rattle.new_edges.specs.Functions.{all_lasts, block_ids, function_edges, function_ids, lasts_yet, new_end};
ghost use Rattle.new_edges.specs.Knowing.{Knows};
ghost use Rattle.sym_expr.specs.declared.patches.FunLine.{FunLine as FunLineOf};
ghost use Rattle.sym_expr.specs.declared.patches.FunLine.TheVariants.{Word as WordOf};
ghost use Rattle.sym_expr.specs.Targets.{function_block_id};

use crate::context::Context;
use crate::new_end::{LastWord, NewEnd, push_edges};
use crate::rows::is_control;
use derived_ids::block_id;
use gt_model::{Edge, Module};
use std::alloc::{AllocError, Global};
use sym_expr::{FunLine, Function, PatchWord};
use uuid::Uuid;

/// A function that is cut line by line: the last words of the blocks that are whole, that of the one
/// that isn't, and whether the next word begins another.
#[derive(Drop)]
pub(crate) struct Lasts {
    pub whole: Vec<LastWord>,
    pub last: Option<LastWord>,
    pub fresh: bool,
}

impl Lasts {
    /// Ends the block that isn't whole, if there is one.
    fn end_block(&mut self) -> Result<(), AllocError>
        ensures { OnOk result ((self.new.whole.items ≡ self.old.whole.items ++ option_to_list self.old.last) × (self.new.last ≡ self.old.last) × (self.new.fresh ≡ self.old.fresh)) }
    {
        match self.last {
            Some(LastWord { word, branch }) => {
                self.whole.push(LastWord { word, branch })?;
                Ok(())
            }
            None => Ok(()),
        }
    }

    /// Ends the block that isn't whole where the next word begins another.
    fn end_before_word(&mut self) -> Result<(), AllocError>
        ensures { OnOk result ((self.new.whole.items ≡ self.old.whole.items ++ (if self.old.fresh then option_to_list self.old.last else [])) × (self.new.last ≡ self.old.last)) }
    {
        if !self.fresh {
            return Ok(());
        }
        self.end_block()
    }

    /// One word further.
    fn add_word(&mut self, context: &Context<'_>, word: &PatchWord) -> Result<(), AllocError>
        requires { Knows context.now }
        ensures { OnOk result ((rest : List FunLineOf) → all_lasts context.now.module.now context.now.patches.now self.new rest ≡ all_lasts context.now.module.now context.now.patches.now self.old (WordOf word.now ∷ rest)) }
    {
        self.end_before_word()?;
        self.last = Some(LastWord {
            word: word.word,
            branch: context.branch_of(word),
        });
        self.fresh = is_control(word.word);
        Ok(())
    }

    /// One line further.
    fn add_line(&mut self, context: &Context<'_>, line: &FunLine) -> Result<(), AllocError>
        requires { Knows context.now }
        ensures { OnOk result ((rest : List FunLineOf) → all_lasts context.now.module.now context.now.patches.now self.new rest ≡ all_lasts context.now.module.now context.now.patches.now self.old (line.now ∷ rest)) }
    {
        match line {
            FunLine::Label(_) => {
                self.fresh = true;
                Ok(())
            }
            FunLine::Word(word) => self.add_word(context, word),
        }
    }
}

/// The last words of the blocks of a function.
fn last_words(
    alloc: Global,
    context: &Context<'_>,
    function: &Function,
) -> Result<Vec<LastWord>, AllocError>
    requires { Knows context.now }
    ensures { IfOk result (λ lasts. lasts.items ≡ lasts_yet context.now.module.now context.now.patches.now None true function.now.body) }
{
    let mut lasts = Lasts {
        whole: Vec::new(alloc),
        last: None,
        fresh: true,
    };
    for line in function.body.as_slice() {
        lasts.add_line(context, line)?;
    }
    lasts.end_block()?;
    let Lasts { whole, .. } = lasts;
    Ok(whole)
}

/// The identifier of a block of a function that has so many, if it has that one.
fn id_of_next(
    alloc: Global,
    module: &Module,
    function: &Function,
    k: u64,
    count: u64,
) -> Result<Option<Uuid>, AllocError>
    ensures { IfOk result (λ id. id ≡ (if nat_lt k count then Some (function_block_id «module».now function.now k) else None)) }
{
    if k < count {
        let id = block_id(alloc, &module.uuid, function.name.as_str(), k)?;
        Ok(Some(id))
    } else {
        Ok(None)
    }
}

/// How a block of a function that has so many ends, and what follows it.
fn function_end(
    alloc: Global,
    module: &Module,
    function: &Function,
    count: u64,
    k: u64,
    last: &LastWord,
) -> Result<NewEnd, AllocError>
    requires { k < 2 ^ 63 }
    ensures { IfOk result (λ end. end ≡ new_end «module».now function.now count k last.now) }
{
    let id = block_id(alloc, &module.uuid, function.name.as_str(), k)?;
    let next = id_of_next(alloc, module, function, k + 1, count)?;
    Ok(NewEnd {
        id,
        word: Some(last.word),
        branch: last.branch,
        next,
    })
}

/// The edges from the blocks of a function, behind those before.
fn push_function(
    alloc: Global,
    edges: &mut Vec<Edge>,
    context: &Context<'_>,
    function: &Function,
) -> Result<(), AllocError>
    requires { Knows context.now }
    ensures { OnOk result (edges.new.items ≡ edges.old.items ++ function_edges context.now.module.now context.now.patches.now function.now) }
{
    let lasts = last_words(alloc, context, function)?;
    let count = lasts.len() as u64;
    let mut k = 0;
    for last in lasts.as_slice() {
        let end = function_end(alloc, context.module, function, count, k, last)?;
        push_edges(edges, &end)?;
        k += 1;
    }
    Ok(())
}

/// The edges from the blocks of functions, behind those before.
pub(crate) fn push_functions(
    alloc: Global,
    edges: &mut Vec<Edge>,
    context: &Context<'_>,
) -> Result<(), AllocError>
    requires { Knows context.now }
    ensures { OnOk result (edges.new.items ≡ edges.old.items ++ flat_map (function_edges context.now.module.now context.now.patches.now) context.now.patches.now.functions) }
{
    for function in context.patches.functions.as_slice() {
        push_function(alloc, edges, context, function)?;
    }
    Ok(())
}

/// The identifiers of so many blocks of a function, behind those before.
fn push_block_ids(
    alloc: Global,
    ids: &mut Vec<Uuid>,
    module: &Module,
    function: &Function,
    count: u64,
) -> Result<(), AllocError>
    ensures { OnOk result (ids.new.items ≡ ids.old.items ++ block_ids «module».now function.now 0 count) }
{
    for k in 0..count {
        let id = block_id(alloc, &module.uuid, function.name.as_str(), k)?;
        ids.push(id)?;
    }
    Ok(())
}

/// The identifiers of the blocks of functions, behind those before.
pub(crate) fn push_function_ids(
    alloc: Global,
    ids: &mut Vec<Uuid>,
    context: &Context<'_>,
) -> Result<(), AllocError>
    requires { Knows context.now }
    ensures { OnOk result (ids.new.items ≡ ids.old.items ++ flat_map (function_ids context.now.module.now context.now.patches.now) context.now.patches.now.functions) }
{
    for function in context.patches.functions.as_slice() {
        let lasts = last_words(alloc, context, function)?;
        push_block_ids(alloc, ids, context.module, function, lasts.len() as u64)?;
    }
    Ok(())
}
