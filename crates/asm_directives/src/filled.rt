//! Words with expressions that fill their operands.

ghost use Rattle.std.specs.Prelude.{◌≡◌, ◌∷◌, ◌++◌, [], ℕ, Some};
ghost use Rattle.a64_forms.specs.declared.form.Numbers.TheVariants.{Any, Fitting};
ghost use Rattle.a64_forms.specs.Number.{IsNumber, IsNumberWord};
ghost use Rattle.asm_lines.specs.declared.line.AsmLine.{AsmLine};
ghost use Rattle.asm_lines.specs.declared.line.AsmItem.TheVariants.{Word};
ghost use Rattle.asm_lines.specs.declared.line.AsmLine.TheVariants.{Item};
ghost use Rattle.asm_directives.specs.Answers.{Answers};
ghost use Rattle.asm_directives.specs.Directives.{IsInstWith, IsOpenWord};

use crate::mark::before_comma;
use crate::number::{joint_reason, number_reason, read_open_word};
use asm_lines::{AsmExpr, AsmItem, AsmLine, read_expression};
use asm_read::TextReason;
use gr_base::End;
use std::alloc::Global;

fn open_line(number: &[u8], e: AsmExpr) -> Result<AsmLine, End<TextReason>>
    ensures { Answers (λ (said : AsmLine). (word : ℕ) × IsNumber number.now word × IsOpenWord word × (said ≡ Item (Word word (Some e)))) (IsNumberWord number.now) result }
{
    match read_open_word(number) {
        Some(word) => Ok(AsmLine::Item(AsmItem::Word(word, Some(e)))),
        None => Err(End::Fault(number_reason(number))),
    }
}

fn read_parts(alloc: Global, number: &[u8], text: &[u8]) -> Result<AsmLine, End<TextReason>>
    ensures { Answers (IsInstWith Fitting (number.now ++ 44 ∷ []) text.now) ((said : AsmLine) × IsInstWith Any (number.now ++ 44 ∷ []) text.now said) result }
{
    match read_expression(alloc, text) {
        Ok(e) => open_line(number, e),
        Err(End::Fault(reason)) => Err(End::Fault(joint_reason(number, reason))),
        Err(End::Memory) => Err(End::Memory),
    }
}

/// A word by its number, with what fills its operand.
pub(crate) fn read_inst_with(
    alloc: Global,
    first: &[u8],
    second: &[u8],
) -> Result<AsmLine, End<TextReason>>
    ensures { Answers (IsInstWith Fitting first.now second.now) ((said : AsmLine) × IsInstWith Any first.now second.now said) result }
{
    match before_comma(first) {
        Some(number) => read_parts(alloc, number, second),
        None => Err(End::Fault(TextReason::Syntax)),
    }
}
