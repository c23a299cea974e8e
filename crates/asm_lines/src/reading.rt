//! Lines by their words.

ghost use Rattle.std.specs.Prelude.{◌≡◌, ◌++◌, ◌∷◌, ◌↔◌, ◌≤◌, [], ℕ, List, Err, IfOk, IsTrue, MatchOption, MatchResult, length};
ghost use Rattle.gr_base.specs.declared.end.End.TheVariants as ends;
ghost use Rattle.asm_read.specs.declared.fault.TextReason.{TextReason};
ghost use Rattle.asm_lines.specs.declared.line.AsmLine.{AsmLine};
ghost use Rattle.asm_lines.specs.Lines.{AreFaulty, IsDirective, IsDirectiveWord, IsFault, IsLine, WordsSay};

use crate::cut::texts_of;
use crate::instruction::read_instruction;
use crate::label::read_label;
use crate::line::AsmLine;
use a64_forms::laws::form_begins;
use asm_read::laws::one_split;
use asm_read::{TextReason, split_words};
use gr_base::{Bytes, End};
use std::alloc::Global;

/// What stands before a colon at the end.
fn before_colon(word: &[u8]) -> Option<&[u8]>
    ensures { MatchOption result ((front : List ℕ) → word.now ≡ front ++ 58 ∷ [] → ⊥) (λ front. word.now ≡ front.now ++ 58 ∷ []) }
{
    word.strip_suffix(b":")
}

fn begins_dot(word: &[u8]) -> bool
    ensures { IsTrue result ↔ ((behind : List ℕ) × (word.now ≡ 46 ∷ behind)) }
{
    matches!(word, [b'.', ..])
}

fn is_directive(word: &[u8]) -> bool
    ensures { IsTrue result ↔ IsDirectiveWord word.now }
{
    match before_colon(word) {
        Some(_) => false,
        None => begins_dot(word),
    }
}

/// What a single word says.
fn read_alone(alloc: Global, word: &[u8]) -> Result<AsmLine, End<TextReason>>
    ensures found { IfOk result (WordsSay (word.now ∷ [])) }
    ensures only { (said : AsmLine) → WordsSay (word.now ∷ []) said → MatchResult result (λ found. found ≡ said) (λ end. end ≡ ends.Memory) }
    ensures reason { (reason : TextReason) → result ≡ Err (ends.Fault reason) → AreFaulty (word.now ∷ []) reason }
{
    form_begins();
    match before_colon(word) {
        Some(label) => {
            let label = read_label(alloc, label)?;
            Ok(AsmLine::Label(label))
        }
        None if is_directive(word) => Err(End::Fault(TextReason::Directive)),
        None => Err(End::Fault(TextReason::Syntax)),
    }
}

/// What two words and more say that don't begin with a directive.
fn read_more(alloc: Global, words: &[Bytes]) -> Result<AsmLine, End<TextReason>>
    requires more { 2 ≤ length words.now }
    requires plain { IsDirective words.now → ⊥ }
    ensures found { IfOk result (WordsSay words.now) }
    ensures only { (said : AsmLine) → WordsSay words.now said → MatchResult result (λ found. found ≡ said) (λ end. end ≡ ends.Memory) }
    ensures reason { (reason : TextReason) → result ≡ Err (ends.Fault reason) → AreFaulty words.now reason }
{
    let texts = texts_of(alloc, words)?;
    let item = read_instruction(alloc, texts.as_slice())?;
    Ok(AsmLine::Item(item))
}

/// What the words of a line say.
fn read_words(alloc: Global, words: &[Bytes]) -> Result<AsmLine, End<TextReason>>
    ensures found { IfOk result (WordsSay words.now) }
    ensures only { (said : AsmLine) → WordsSay words.now said → MatchResult result (λ found. found ≡ said) (λ end. end ≡ ends.Memory) }
    ensures reason { (reason : TextReason) → result ≡ Err (ends.Fault reason) → AreFaulty words.now reason }
{
    form_begins();
    match words {
        [] => Ok(AsmLine::Blank),
        [word] => read_alone(alloc, word.as_slice()),
        [first, ..] if is_directive(first.as_slice()) => Err(End::Fault(TextReason::Directive)),
        [_, ..] => read_more(alloc, words),
    }
}

/// What a line of assembly says. Directives aren't read yet: each is answered Directive.
pub fn read_line(alloc: Global, line: &[u8]) -> Result<AsmLine, End<TextReason>>
    // What is read is what the line says.
    ensures found { IfOk result (IsLine line.now) }
    // What a line says is read, unless memory runs out.
    ensures only { (said : AsmLine) → IsLine line.now said → MatchResult result (λ found. found ≡ said) (λ end. end ≡ ends.Memory) }
    // Which reason it is.
    ensures reason { (reason : TextReason) → result ≡ Err (ends.Fault reason) → IsFault line.now reason }
{
    one_split();
    let words = split_words(alloc, line)?;
    read_words(alloc, words.as_slice())
}
