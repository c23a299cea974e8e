//! What directives say with their operands.

ghost use Rattle.std.specs.Prelude.{◌≡◌, ◌∷◌, [], ℕ, List};
ghost use Rattle.a64_forms.specs.declared.form.Numbers.TheVariants.{Any, Fitting};
ghost use Rattle.asm_lines.specs.declared.line.AsmLine.{AsmLine};
ghost use Rattle.asm_directives.specs.Answers.{Answers};
ghost use Rattle.asm_directives.specs.Directives.{HaveShape, NoneSays, OneSays, OperandsSay, ThreeSay, TwoSay};

use crate::directive::Directive;
use crate::filled::read_inst_with;
use crate::instant::{read_hex, read_inst, read_zero};
use crate::interval::{read_interval, read_interval_at};
use crate::mark::{read_section, read_set};
use crate::value::{read_narrow, read_quad, read_word};
use asm_lines::AsmLine;
use asm_read::TextReason;
use gr_base::{Bytes, End};
use std::alloc::Global;

fn read_none(directive: Directive) -> Result<AsmLine, End<TextReason>>
    ensures { Answers (NoneSays directive) ((said : AsmLine) × NoneSays directive said) result }
{
    match directive {
        Directive::Entry => Ok(AsmLine::Entry),
        _ => Err(End::Fault(TextReason::Syntax)),
    }
}

fn read_one(alloc: Global, directive: Directive, text: &[u8]) -> Result<AsmLine, End<TextReason>>
    ensures { Answers (OneSays Fitting directive text.now) ((said : AsmLine) × OneSays Any directive text.now said) result }
{
    match directive {
        Directive::Section => read_section(alloc, text),
        Directive::Hex => read_hex(alloc, text),
        Directive::Zero => read_zero(text),
        Directive::Inst => read_inst(text),
        Directive::Quad => read_quad(alloc, text),
        Directive::Word => read_word(alloc, text),
        Directive::Byte => read_narrow(alloc, 1, text),
        Directive::Hword => read_narrow(alloc, 2, text),
        Directive::Set | Directive::Interval | Directive::Entry => {
            Err(End::Fault(TextReason::Syntax))
        }
    }
}

fn read_two(
    alloc: Global,
    directive: Directive,
    first: &[u8],
    second: &[u8],
) -> Result<AsmLine, End<TextReason>>
    ensures { Answers (TwoSay Fitting directive first.now second.now) ((said : AsmLine) × TwoSay Any directive first.now second.now said) result }
{
    match directive {
        Directive::Set => read_set(alloc, first, second),
        Directive::Interval => read_interval(first, second),
        Directive::Inst => read_inst_with(alloc, first, second),
        _ => Err(End::Fault(TextReason::Syntax)),
    }
}

fn read_three(
    directive: Directive,
    first: &[u8],
    second: &[u8],
    third: &[u8],
) -> Result<AsmLine, End<TextReason>>
    ensures { Answers (ThreeSay Fitting directive first.now second.now third.now) ((said : AsmLine) × ThreeSay Any directive first.now second.now third.now said) result }
{
    match directive {
        Directive::Interval => read_interval_at(first, second, third),
        _ => Err(End::Fault(TextReason::Syntax)),
    }
}

/// What a directive says with these operands.
pub(crate) fn read_operands(
    alloc: Global,
    directive: Directive,
    operands: &[Bytes],
) -> Result<AsmLine, End<TextReason>>
    ensures { Answers (OperandsSay Fitting directive operands.now) (HaveShape directive operands.now) result }
{
    match operands {
        [] => read_none(directive),
        [text] => read_one(alloc, directive, text.as_slice()),
        [first, second] => read_two(alloc, directive, first.as_slice(), second.as_slice()),
        [first, second, third] => read_three(
            directive,
            first.as_slice(),
            second.as_slice(),
            third.as_slice(),
        ),
        [_, _, _, _, ..] => Err(End::Fault(TextReason::Syntax)),
    }
}
