//! A block that is cut word by word.

ghost use Rattle.std.specs.Prelude.{◌≡◌, ◌<◌, ◌≤◌, ◌+◌, ◌*◌, ◌^◌, ◌++◌, List, [], ◌∷◌, length, IfOk, OnOk};
ghost use Rattle.taken_ids.specs.Cutting.{all_parts, is_cut_behind, IsUncut};
ghost use Rattle.block_parts.specs.Parts.{is_cut, part};
ghost use Rattle.block_parts.specs.declared.words.PatchedWord.{PatchedWord as PatchedWordOf};

use crate::control::is_control;
use crate::words::is_inserted;
use block_parts::{Part, PatchedWord};
use gr_base::Seq;
use std::alloc::{AllocError, Global};
use std::mem;

/// The parts of a block so far: those that are whole, and the words of the one that isn't, with its start.
#[derive(Drop)]
pub(crate) struct Cutting {
    pub whole: Vec<Part>,
    pub own: Vec<PatchedWord>,
    pub start: u64,
}

/// A block is cut between the two words.
fn is_cut(word: &PatchedWord, next: &PatchedWord) -> bool
    ensures { result ≡ is_cut word.now next.now }
{
    (is_inserted(word) || is_inserted(next)) && is_control(word.word)
}

/// A block is cut between these words and the next.
fn is_cut_behind(words: &[PatchedWord], next: &PatchedWord) -> bool
    ensures { result ≡ is_cut_behind words.now next.now }
{
    match words.last() {
        Some(word) => is_cut(word, next),
        None => false,
    }
}

impl Cutting {
    /// Before the first word.
    pub(crate) fn new(alloc: Global) -> Cutting
        ensures { (result.whole.items ≡ []) × (result.own.items ≡ []) × (result.start ≡ 0) }
    {
        Cutting {
            whole: Vec::new(alloc),
            own: Vec::new(alloc),
            start: 0,
        }
    }

    /// Puts the part that isn't whole behind those that are.
    fn end_part(&mut self, alloc: Global) -> Result<(), AllocError>
        requires { self.old.start + 4 * length self.old.own.items < 2 ^ 63 }
        ensures { OnOk result ((self.new.whole.items ≡ self.old.whole.items ++ part self.old.start self.old.own.items ∷ []) × (self.new.own.items ≡ []) × (self.new.start ≡ self.old.start + 4 * length self.old.own.items)) }
    {
        let words = self.own.len() as u64;
        let own = mem::replace(&mut self.own, Vec::new(alloc));
        self.whole.push(Part {
            start: self.start,
            words: Seq::from_vec(own),
        })?;
        self.start += 4 * words;
        Ok(())
    }

    /// Ends the part that isn't whole where it is cut from the next word.
    fn end_before(&mut self, alloc: Global, word: &PatchedWord) -> Result<(), AllocError>
        requires uncut { IsUncut self.old.own.items }
        requires room { self.old.start + 4 * length self.old.own.items < 2 ^ 62 }
        ensures parts { OnOk result ((rest : List PatchedWordOf) → all_parts self.new (word.now ∷ rest) ≡ all_parts self.old (word.now ∷ rest)) }
        ensures uncut { OnOk result (IsUncut (self.new.own.items ++ word.now ∷ [])) }
        ensures room { OnOk result (self.new.start + 4 * length self.new.own.items ≤ self.old.start + 4 * length self.old.own.items) }
    {
        if !is_cut_behind(self.own.as_slice(), word) {
            return Ok(());
        }
        self.end_part(alloc)?;
        Ok(())
    }

    /// One word further.
    pub(crate) fn add(&mut self, alloc: Global, word: &PatchedWord) -> Result<(), AllocError>
        requires uncut { IsUncut self.old.own.items }
        requires room { self.old.start + 4 * length self.old.own.items < 2 ^ 62 }
        ensures parts { OnOk result ((rest : List PatchedWordOf) → all_parts self.new rest ≡ all_parts self.old (word.now ∷ rest)) }
        ensures uncut { OnOk result (IsUncut self.new.own.items) }
        ensures room { OnOk result (self.new.start + 4 * length self.new.own.items ≤ self.old.start + 4 * length self.old.own.items + 4) }
    {
        self.end_before(alloc, word)?;
        self.own.push(*word)?;
        Ok(())
    }

    /// All parts, with the one that isn't whole last.
    pub(crate) fn finished(self) -> Result<Seq<Part>, AllocError>
        requires uncut { IsUncut self.own.items }
        ensures { IfOk result (λ made. made ≡ all_parts self []) }
    {
        let Cutting {
            mut whole,
            own,
            start,
        } = self;
        let words = Seq::from_vec(own);
        whole.push(Part { start, words })?;
        Ok(Seq::from_vec(whole))
    }
}
