//! The words of code with those that are inserted.

ghost use Rattle.std.specs.Prelude.{◌≡◌, ◌<◌, ◌+◌, ◌*◌, ◌^◌, ◌++◌, ℕ, [], ◌∷◌, ◌==◌, length, nat_eq, if◌then◌else◌, unwrap_or, IfOk, OnOk};
ghost use Rattle.indexmap.specs.IndexMap.{get};
ghost use Rattle.sym_expr.specs.Images.{all_words};
ghost use Rattle.sym_expr.specs.Patches.{inserted_at};
ghost use Rattle.sym_expr.specs.Points.{ins};

use gr_base::Seq;
use indexmap::IndexMap;
use std::alloc::{AllocError, Global};
use sym_expr::{CodeBlock, Word};

/// Adds a word behind those of its offset.
fn add_word(
    alloc: Global,
    map: &mut IndexMap<u64, Seq<Word>>,
    offset: u64,
    word: Word,
) -> Result<(), AllocError>
    ensures { OnOk result ((at : ℕ) → unwrap_or (get nat_eq map.new at) [] ≡ unwrap_or (get nat_eq map.old at) [] ++ (if at == offset then word ∷ [] else [])) }
{
    match map.get_mut(&offset) {
        Some(words) => words.push(word),
        None => {
            map.insert(offset, Seq::from_slice(alloc, &[word])?)?;
            Ok(())
        }
    }
}

/// The inserted words by their offset.
fn words_by_offset(
    alloc: Global,
    inserted: &[(u64, Word)],
) -> Result<IndexMap<u64, Seq<Word>>, AllocError>
    ensures { IfOk result (λ map. (offset : ℕ) → unwrap_or (get nat_eq map offset) [] ≡ inserted_at offset inserted.now) }
{
    let mut map = IndexMap::new(alloc);
    for (offset, word) in inserted {
        add_word(alloc, &mut map, *offset, *word)?;
    }
    Ok(map)
}

/// Adds the words that are inserted at an offset.
fn push_inserted(
    words: &mut Vec<Word>,
    map: &IndexMap<u64, Seq<Word>>,
    offset: u64,
) -> Result<(), AllocError>
    ensures { OnOk result (words.new.items ≡ words.old.items ++ unwrap_or (get nat_eq map.now offset) []) }
{
    match map.get(&offset) {
        Some(inserted) => words.extend_from_slice(inserted.as_slice()),
        None => Ok(()),
    }
}

/// All words of a block in order: those that are inserted at the offset of an own word stand before it.
pub fn all_words(alloc: Global, block: &CodeBlock) -> Result<Vec<Word>, AllocError>
    requires { 4 * length block.now.own < 2 ^ 63 }
    ensures { IfOk result (λ words. words.items ≡ all_words block.now) }
{
    let inserted = words_by_offset(alloc, block.inserted.as_slice())?;
    let mut words = Vec::new(alloc);
    let mut offset = 0;
    for word in block.own.as_slice() {
        push_inserted(&mut words, &inserted, offset)?;
        words.push(*word)?;
        offset += 4;
    }
    push_inserted(&mut words, &inserted, offset)?;
    Ok(words)
}
