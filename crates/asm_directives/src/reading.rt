//! Lines by their words.

ghost use Rattle.std.specs.Prelude.{◌∷◌, IsUtf8};
ghost use Rattle.asm_read.specs.Words.{HasWords};
ghost use Rattle.asm_directives.specs.Lines.{HasTexts, LineSays, NamedSays};

use crate::directive::{directive_of, is_directive};
use crate::operands::read_operands;
use a64_forms::laws::form_begins;
use asm_lines::laws::said_without_fault;
use asm_lines::{AsmLine, read_line, texts_of};
use asm_read::laws::one_split;
use asm_read::{TextReason, split_words};
use gr_base::{Bytes, End};
use std::alloc::Global;

/// What a directive, or a word like one, says with its operands.
fn read_directive(
    alloc: Global,
    first: &[u8],
    operands: &[Bytes],
) -> Result<AsmLine, End<TextReason>>
    ensures { NamedSays first.now operands.now result }
{
    match directive_of(first) {
        Some(directive) => read_operands(alloc, directive, operands),
        None => Err(End::Fault(TextReason::Directive)),
    }
}

/// What a line says whose words, cut behind their commas, are these.
fn read_begun(
    alloc: Global,
    line: &[u8],
    first: &[u8],
    operands: &[Bytes],
) -> Result<AsmLine, End<TextReason>>
    requires { HasTexts line.now (first.now ∷ operands.now) }
    ensures { LineSays line.now result }
{
    one_split();
    form_begins();
    said_without_fault();
    if is_directive(first) {
        return read_directive(alloc, first, operands);
    }
    read_line(alloc, line)
}

fn read_texts(alloc: Global, line: &[u8], texts: &[Bytes]) -> Result<AsmLine, End<TextReason>>
    requires { HasTexts line.now texts.now }
    ensures { LineSays line.now result }
{
    one_split();
    match texts {
        [] => read_line(alloc, line),
        [first, operands @ ..] => read_begun(alloc, line, first.as_slice(), operands),
    }
}

fn read_words(alloc: Global, line: &[u8], words: &[Bytes]) -> Result<AsmLine, End<TextReason>>
    requires utf8 { IsUtf8 line.now }
    requires words { HasWords line.now words.now }
    ensures { LineSays line.now result }
{
    match texts_of(alloc, words) {
        Ok(texts) => read_texts(alloc, line, texts.as_slice()),
        Err(_) => Err(End::Memory),
    }
}

/// What a line of assembly text says.
pub fn read_asm_line(alloc: Global, line: &[u8]) -> Result<AsmLine, End<TextReason>>
    // What is read is what the line says, and a fault is why it says nothing.
    ensures { LineSays line.now result }
{
    match split_words(alloc, line) {
        Ok(words) => read_words(alloc, line, words.as_slice()),
        Err(End::Fault(_)) => Err(End::Fault(TextReason::Syntax)),
        Err(End::Memory) => Err(End::Memory),
    }
}
