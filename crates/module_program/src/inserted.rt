//! The words that patches insert, by their blocks.

ghost use Rattle.std.specs.Prelude.{◌≡◌, ◌++◌, ℕ, List, [], ◌∷◌, if◌then◌else◌, map, unwrap_or, IfOk, OnOk};
ghost use Rattle.std.specs.List.{AllByRecursion};
ghost use Rattle.std.specs.Str.{bytes_eq};
ghost use Rattle.indexmap.specs.IndexMap.{get};
ghost use Rattle.module_program.specs.Knowing.{KnowsNames, HasGoodWords, inserted_words, words_among};

use crate::context::Context;
use gr_base::Seq;
use indexmap::IndexMap;
use std::alloc::{AllocError, Global};
use sym_expr::{Insert, Word};
use uuid::Uuid;

/// Adds a word at an offset behind those of its block.
fn add_word(
    alloc: Global,
    map: &mut IndexMap<Uuid, Seq<(u64, Word)>>,
    block: Uuid,
    offset: u64,
    word: Word,
) -> Result<(), AllocError>
    ensures { OnOk result ((id : List ℕ) → unwrap_or (get bytes_eq map.new id) [] ≡ unwrap_or (get bytes_eq map.old id) [] ++ (if bytes_eq block id then (offset, word) ∷ [] else [])) }
{
    match map.get_mut(&block) {
        Some(words) => words.push((offset, word)),
        None => {
            map.insert(block, Seq::from_slice(alloc, &[(offset, word)])?)?;
            Ok(())
        }
    }
}

/// Adds the words of an insert behind those of its block.
fn add_insert(
    alloc: Global,
    map: &mut IndexMap<Uuid, Seq<(u64, Word)>>,
    context: &Context<'_>,
    insert: &Insert,
) -> Result<(), AllocError>
    requires known { KnowsNames context.now }
    requires good { HasGoodWords context.now.module context.now.patches.now insert.now }
    ensures { OnOk result ((id : List ℕ) → unwrap_or (get bytes_eq map.new id) [] ≡ unwrap_or (get bytes_eq map.old id) [] ++ words_among context.now.module context.now.patches.now (insert.now ∷ []) id) }
{
    for word in insert.body.as_slice() {
        let word = context.patched_word(word);
        add_word(alloc, map, insert.block, insert.offset, word)?;
    }
    Ok(())
}

/// The words that are inserted in each block, by their offset in it.
pub(crate) fn words_by_block(
    alloc: Global,
    context: &Context<'_>,
) -> Result<IndexMap<Uuid, Seq<(u64, Word)>>, AllocError>
    requires known { KnowsNames context.now }
    requires good { AllByRecursion (HasGoodWords context.now.module context.now.patches.now) context.now.patches.now.inserts }
    ensures { IfOk result (λ map. (id : List ℕ) → unwrap_or (get bytes_eq map id) [] ≡ inserted_words context.now.module context.now.patches.now id) }
{
    let mut map = IndexMap::new(alloc);
    for insert in context.patches.inserts.as_slice() {
        add_insert(alloc, &mut map, context, insert)?;
    }
    Ok(map)
}
