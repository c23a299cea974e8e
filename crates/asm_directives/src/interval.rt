//! Directives that begin intervals.

ghost use Rattle.std.specs.Prelude.{◌≡◌, ℕ, List, Some, None};
ghost use Rattle.a64_forms.specs.declared.form.Numbers.TheVariants.{Any, Fitting};
ghost use Rattle.asm_lines.specs.declared.line.AsmLine.{AsmLine};
ghost use Rattle.asm_directives.specs.Answers.{Answers};
ghost use Rattle.asm_directives.specs.Directives.{IsInterval, IsIntervalAt};

use crate::number::{number_reason, numbers_reason, read_alignment, read_residue};
use asm_lines::AsmLine;
use asm_read::{TextReason, read_uuid};
use gr_base::End;

/// An interval of this alignment.
pub(crate) fn read_interval(first: &[u8], second: &[u8]) -> Result<AsmLine, End<TextReason>>
    ensures { Answers (IsInterval Fitting first.now second.now) ((said : AsmLine) × IsInterval Any first.now second.now said) result }
{
    match read_uuid(first) {
        None => Err(End::Fault(TextReason::Syntax)),
        Some(uuid) => match read_alignment(second) {
            Some(align) => Ok(AsmLine::Interval(uuid, align, None)),
            None => Err(End::Fault(number_reason(second))),
        },
    }
}

/// An interval of this alignment and residue.
pub(crate) fn read_interval_at(
    first: &[u8],
    second: &[u8],
    third: &[u8],
) -> Result<AsmLine, End<TextReason>>
    ensures { Answers (IsIntervalAt Fitting first.now second.now third.now) ((said : AsmLine) × IsIntervalAt Any first.now second.now third.now said) result }
{
    match read_uuid(first) {
        None => Err(End::Fault(TextReason::Syntax)),
        Some(uuid) => match read_alignment(second) {
            None => Err(End::Fault(numbers_reason(second, third))),
            Some(align) => match read_residue(align, third) {
                Some(residue) => Ok(AsmLine::Interval(uuid, align, Some(residue))),
                None => Err(End::Fault(numbers_reason(second, third))),
            },
        },
    }
}
