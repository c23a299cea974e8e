//! The texts that the table of forms has for a word.

ghost use Rattle.std.specs.Prelude.{◌≡◌, IfOk};
ghost use Rattle.a64_forms.specs.Spelling.{accesses, branches, immediates, indexed, pairs, registers};
ghost use Rattle.asm_spelling.specs.Words.{first_written, table_texts};

use crate::forms::first_written;
use crate::named::Named;
use crate::written::Texts;
use a64_forms::{ACCESSES, BRANCHES, IMMEDIATES, INDEXED, PAIRS, REGISTERS};
use std::alloc::{AllocError, Global};

fn immediate_texts(alloc: Global, word: u32, named: &Named) -> Result<Option<Texts>, AllocError>
    ensures { IfOk result (λ made. made ≡ first_written word named.now immediates) }
{
    first_written(alloc, word, named, &IMMEDIATES)
}

fn register_texts(alloc: Global, word: u32, named: &Named) -> Result<Option<Texts>, AllocError>
    ensures { IfOk result (λ made. made ≡ first_written word named.now registers) }
{
    first_written(alloc, word, named, &REGISTERS)
}

fn branch_texts(alloc: Global, word: u32, named: &Named) -> Result<Option<Texts>, AllocError>
    ensures { IfOk result (λ made. made ≡ first_written word named.now branches) }
{
    first_written(alloc, word, named, &BRANCHES)
}

fn access_texts(alloc: Global, word: u32, named: &Named) -> Result<Option<Texts>, AllocError>
    ensures { IfOk result (λ made. made ≡ first_written word named.now accesses) }
{
    first_written(alloc, word, named, &ACCESSES)
}

fn index_texts(alloc: Global, word: u32, named: &Named) -> Result<Option<Texts>, AllocError>
    ensures { IfOk result (λ made. made ≡ first_written word named.now indexed) }
{
    first_written(alloc, word, named, &INDEXED)
}

fn pair_texts(alloc: Global, word: u32, named: &Named) -> Result<Option<Texts>, AllocError>
    ensures { IfOk result (λ made. made ≡ first_written word named.now pairs) }
{
    first_written(alloc, word, named, &PAIRS)
}

/// The texts of the table's first form that has some.
#[tactic(auto, unfolding(crate::specs::Words::table_texts))]
pub(crate) fn table_texts(
    alloc: Global,
    word: u32,
    named: &Named,
) -> Result<Option<Texts>, AllocError>
    ensures { IfOk result (λ made. made ≡ table_texts word named.now) }
{
    if let Some(texts) = immediate_texts(alloc, word, named)? {
        return Ok(Some(texts));
    }
    if let Some(texts) = register_texts(alloc, word, named)? {
        return Ok(Some(texts));
    }
    if let Some(texts) = branch_texts(alloc, word, named)? {
        return Ok(Some(texts));
    }
    if let Some(texts) = access_texts(alloc, word, named)? {
        return Ok(Some(texts));
    }
    if let Some(texts) = index_texts(alloc, word, named)? {
        return Ok(Some(texts));
    }
    pair_texts(alloc, word, named)
}
