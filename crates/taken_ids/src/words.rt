//! The words of code with those that are inserted, and where each comes from.

ghost use Rattle.std.specs.Prelude.{◌≡◌, ◌<◌, ◌^◌, ◌++◌, ℕ, [], ◌∷◌, ◌==◌, nat_eq, if◌then◌else◌, unwrap_or, IfOk, OnOk};
ghost use Rattle.indexmap.specs.IndexMap.{get};
ghost use Rattle.sym_expr.specs.Patches.{inserted_at};
ghost use Rattle.block_parts.specs.Words.{inserted, is_inserted, numbered, own, patched_words};

use block_parts::{Origin, PatchedWord};
use gr_base::Seq;
use indexmap::IndexMap;
use std::alloc::{AllocError, Global};
use sym_expr::{CodeBlock, Word};

/// Whether patches insert the word.
pub(crate) fn is_inserted(word: &PatchedWord) -> bool
    ensures { result ≡ is_inserted word.now }
{
    matches!(word.origin, Origin::Inserted(_))
}

fn own(offset: u64, word: &Word) -> PatchedWord
    ensures { result ≡ own offset word.now }
{
    PatchedWord {
        word: word.word,
        origin: Origin::Own(offset),
    }
}

fn inserted(k: u64, word: &Word) -> PatchedWord
    ensures { result ≡ inserted k word.now }
{
    PatchedWord {
        word: word.word,
        origin: Origin::Inserted(k),
    }
}

/// Adds a word behind those of its offset.
fn add_word(
    alloc: Global,
    map: &mut IndexMap<u64, Seq<PatchedWord>>,
    offset: u64,
    word: PatchedWord,
) -> Result<(), AllocError>
    ensures { OnOk result ((at : ℕ) → unwrap_or (get nat_eq map.new at) [] ≡ unwrap_or (get nat_eq map.old at) [] ++ (if at == offset then word ∷ [] else [])) }
{
    match map.get_mut(&offset) {
        Some(words) => words.push(word),
        None => {
            map.insert(offset, Seq::from_slice(alloc, &[word])?)?;
            Ok(())
        }
    }
}

/// The inserted words by their offset, each with its number.
fn words_by_offset(
    alloc: Global,
    words: &[(u64, Word)],
) -> Result<IndexMap<u64, Seq<PatchedWord>>, AllocError>
    ensures { IfOk result (λ map. (at : ℕ) → unwrap_or (get nat_eq map at) [] ≡ inserted_at at (numbered 0 words.now)) }
{
    let mut map = IndexMap::new(alloc);
    let mut k = 0u64;
    for (offset, word) in words {
        let word = inserted(k, word);
        add_word(alloc, &mut map, *offset, word)?;
        k += 1;
    }
    Ok(map)
}

/// Adds the words that are inserted at an offset.
fn push_inserted(
    words: &mut Vec<PatchedWord>,
    map: &IndexMap<u64, Seq<PatchedWord>>,
    offset: u64,
) -> Result<(), AllocError>
    ensures { OnOk result (words.new.items ≡ words.old.items ++ unwrap_or (get nat_eq map.now offset) []) }
{
    match map.get(&offset) {
        Some(inserted) => words.extend_from_slice(inserted.as_slice()),
        None => Ok(()),
    }
}

/// All words of a patched block in order: those that are inserted at the offset of an own word stand before it.
pub fn patched_words(alloc: Global, block: &CodeBlock) -> Result<Vec<PatchedWord>, AllocError>
    ensures { IfOk result (λ words. words.items ≡ patched_words block.now) }
{
    let inserted = words_by_offset(alloc, block.inserted.as_slice())?;
    let mut words = Vec::new(alloc);
    let mut offset = 0;
    for word in block.own.as_slice() {
        push_inserted(&mut words, &inserted, offset)?;
        let made = own(offset, word);
        words.push(made)?;
        offset += 4;
    }
    push_inserted(&mut words, &inserted, offset)?;
    Ok(words)
}
