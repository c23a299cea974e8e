//! The words inserted in a block, in the order of their offsets.

ghost use Rattle.std.specs.Prelude.{◌≡◌, ◌==◌, ◌≤◌, ℕ, Some, None, IfOk, filter, length, nat_le, nat_lt, slice_get, if◌then◌else◌};
ghost use Rattle.std.specs.List.Sorted.{IsNonDecreasingBy};
ghost use Rattle.sym_expr.specs.declared.program.Word.{Word as WordOf};
ghost use Rattle.sym_expr.specs.Patches.{inserted_at};
ghost use Rattle.indexed_program.specs.Kept.{IsByOffset};

use gr_base::Seq;
use std::alloc::{AllocError, Global};
use sym_expr::Word;

/// The words by their offsets, those of one offset in the order that they have.
pub fn by_offset(alloc: Global, inserted: &[(u64, Word)]) -> Result<Seq<(u64, Word)>, AllocError>
    ensures { IfOk result (λ words. IsByOffset words inserted.now) }
{
    let mut words = Vec::from_slice(alloc, inserted)?;
    words.sort_by_key(|x| x.0)?;
    Ok(Seq::from_vec(words))
}

/// How many words are inserted below an offset.
pub fn count_below(words: &[(u64, Word)], offset: u64) -> usize
    requires { IsNonDecreasingBy (λ (w : ℕ × WordOf). w.0) words.now }
    ensures value { result ≡ length (filter (λ (w : ℕ × WordOf). nat_lt w.0 offset) words.now) }
    ensures within { result ≤ length words.now }
{
    words.partition_point(|x| x.0 < offset)
}

/// How many words are inserted up to an offset.
fn count_up_to(words: &[(u64, Word)], offset: u64) -> usize
    requires { IsNonDecreasingBy (λ (w : ℕ × WordOf). w.0) words.now }
    ensures { result ≡ length (filter (λ (w : ℕ × WordOf). nat_le w.0 offset) words.now) }
{
    words.partition_point(|x| x.0 <= offset)
}

/// How many words are inserted at an offset.
pub fn count_at(words: &[(u64, Word)], offset: u64) -> usize
    requires { IsNonDecreasingBy (λ (w : ℕ × WordOf). w.0) words.now }
    ensures { result ≡ length (inserted_at offset words.now) }
{
    count_up_to(words, offset) - count_below(words, offset)
}

/// The word of a pair, if it is one of an offset.
fn word_at(pair: &(u64, Word), offset: u64) -> Option<Word>
    ensures { result ≡ (if offset == pair.now.0 then Some pair.now.1 else None) }
{
    if offset == pair.0 { Some(pair.1) } else { None }
}

/// The word that is inserted at an offset behind so many others.
pub fn inserted_word(words: &[(u64, Word)], offset: u64, j: u64) -> Option<Word>
    requires { IsNonDecreasingBy (λ (w : ℕ × WordOf). w.0) words.now }
    ensures { result ≡ slice_get (inserted_at offset words.now) j }
{
    let first = count_below(words, offset);
    let rest = &words[first..];
    match rest.get(j as usize) {
        Some(pair) => word_at(pair, offset),
        None => None,
    }
}
