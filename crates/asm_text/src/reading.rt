//! Assembly text as a module.

ghost use Rattle.std.specs.Prelude.{IfOk};
ghost use Rattle.asm_text.specs.Texts.{Give, GivesBy, LineGives, asm_text, lines_of};

use crate::text::split_line;
use asm_build::build_module;
use asm_directives::read_asm_line;
use asm_lines::AsmLine;
use asm_modules::AsmModule;
use asm_read::{TextFault, TextReason};
use gr_base::{End, Seq};
use std::alloc::{AllocError, Global};

/// What a line says, or why it says nothing.
fn read_given(alloc: Global, line: &[u8]) -> Result<Result<AsmLine, TextReason>, AllocError>
    ensures { IfOk result (LineGives line.now) }
{
    match read_asm_line(alloc, line) {
        Ok(said) => Ok(Ok(said)),
        Err(End::Fault(reason)) => Ok(Err(reason)),
        Err(End::Memory) => Err(AllocError),
    }
}

/// What the lines of a text say, one after another.
fn read_lines(alloc: Global, text: &[u8]) -> Result<Seq<Result<AsmLine, TextReason>>, AllocError>
    ensures { IfOk result (Give (lines_of text.now)) }
{
    let mut lines = Seq::new(alloc);
    let mut rest = text;
    while !rest.is_empty() {
        let (line, behind) = split_line(rest);
        let said = read_given(alloc, line)?;
        lines.push(said)?;
        rest = behind;
    }
    Ok(lines)
}

/// The module that a text gives, or its first line at fault.
pub fn read_asm(alloc: Global, text: &[u8]) -> Result<AsmModule, End<TextFault>>
    // What is answered is what the text gives.
    ensures gives { GivesBy result (asm_text text.now) }
{
    let lines = read_lines(alloc, text)?;
    build_module(alloc, lines)
}
