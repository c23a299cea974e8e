//! Lines of assembly text as a module, or the first of them at fault.

ghost use Rattle.std.specs.Prelude.{◌≡◌, ◌++◌, IfOk, OnOk};
ghost use Rattle.asm_build.specs.Answers.{Gives};
ghost use Rattle.asm_modules.specs.Outcomes.{lines_in, outcome, said};

use crate::build::{intervals_in, labels_in};
use crate::first::check_lines;
use crate::second::check_names;
use crate::seen::Seen;
use asm_lines::AsmLine;
use asm_modules::AsmModule;
use asm_read::{TextFault, TextReason};
use gr_base::{End, Seq};
use std::alloc::{AllocError, Global};

/// Adds what a line says, if it says something.
fn push_said(lines: &mut Seq<AsmLine>, given: Result<AsmLine, TextReason>) -> Result<(), AllocError>
    ensures { OnOk result (lines.new ≡ lines.old ++ said given) }
{
    match given {
        Ok(line) => lines.push(line),
        Err(_) => Ok(()),
    }
}

/// What lines say that all say something.
fn said_lines(
    alloc: Global,
    given: Seq<Result<AsmLine, TextReason>>,
) -> Result<Seq<AsmLine>, AllocError>
    ensures { IfOk result (λ lines. lines ≡ lines_in given) }
{
    let mut lines = Seq::new(alloc);
    for line in given.into_vec() {
        push_said(&mut lines, line)?;
    }
    Ok(lines)
}

/// The module that lines give, or the first of them at fault.
pub fn build_module(
    alloc: Global,
    given: Seq<Result<AsmLine, TextReason>>,
) -> Result<AsmModule, End<TextFault>>
    ensures { Gives result (outcome given) }
{
    let Seen { labels, entry, .. } = check_lines(alloc, given.as_slice())?;
    let lines = said_lines(alloc, given)?;
    let Some(entry) = entry else {
        return Err(End::Fault(TextFault {
            line: lines.len() as u64 + 1,
            reason: TextReason::Directive,
        }));
    };
    if let Err(fault) = check_names(&labels, lines.as_slice()) {
        return Err(End::Fault(fault));
    }
    let labels = labels_in(alloc, lines.as_slice())?;
    let intervals = intervals_in(alloc, lines)?;
    Ok(AsmModule {
        intervals,
        labels,
        entry,
    })
}
