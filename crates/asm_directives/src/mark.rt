//! Directives that begin sections and set labels.

ghost use Rattle.std.specs.Prelude.{◌≡◌, ◌∷◌, ◌++◌, [], ℕ, List, MatchOption};
ghost use Rattle.a64_forms.specs.declared.form.Numbers.TheVariants.{Any, Fitting};
ghost use Rattle.a64_forms.specs.Number.{IsNumber, IsNumberWord};
ghost use Rattle.asm_lines.specs.declared.line.AsmLine.{AsmLine};
ghost use Rattle.asm_lines.specs.declared.line.AsmLine.TheVariants.{Section, Set};
ghost use Rattle.asm_directives.specs.Answers.{Answers};
ghost use Rattle.asm_directives.specs.Directives.{IsSection, IsSet, plain};

use crate::number::number_reason;
use a64_forms::read_number;
use asm_lines::{AsmLine, AsmName, read_label};
use asm_read::TextReason;
use gr_base::End;
use std::alloc::Global;

/// What stands before a comma at the end.
pub(crate) fn before_comma(text: &[u8]) -> Option<&[u8]>
    ensures { MatchOption result ((front : List ℕ) → text.now ≡ front ++ 44 ∷ [] → ⊥) (λ front. text.now ≡ front.now ++ 44 ∷ []) }
{
    text.strip_suffix(b",")
}

fn set_line(name: AsmName, number: &[u8]) -> Result<AsmLine, End<TextReason>>
    ensures { Answers (λ (said : AsmLine). (value : ℕ) × IsNumber number.now value × (said ≡ Set name value)) (IsNumberWord number.now) result }
{
    match read_number(number) {
        Some(value) => Ok(AsmLine::Set(name, value)),
        None => Err(End::Fault(number_reason(number))),
    }
}

fn read_named(alloc: Global, label: &[u8], number: &[u8]) -> Result<AsmLine, End<TextReason>>
    ensures { Answers (IsSet Fitting (label.now ++ 44 ∷ []) number.now) ((said : AsmLine) × IsSet Any (label.now ++ 44 ∷ []) number.now said) result }
{
    match read_label(alloc, label) {
        Ok(name) => set_line(name, number),
        Err(End::Fault(_)) => Err(End::Fault(TextReason::Syntax)),
        Err(End::Memory) => Err(End::Memory),
    }
}

/// An absolute label.
pub(crate) fn read_set(
    alloc: Global,
    first: &[u8],
    second: &[u8],
) -> Result<AsmLine, End<TextReason>>
    ensures { Answers (IsSet Fitting first.now second.now) ((said : AsmLine) × IsSet Any first.now second.now said) result }
{
    match before_comma(first) {
        Some(label) => read_named(alloc, label, second),
        None => Err(End::Fault(TextReason::Syntax)),
    }
}

fn section_line(label: AsmName) -> Result<AsmLine, End<TextReason>>
    ensures { Answers (λ (said : AsmLine). (name : List ℕ) × (label ≡ plain name) × (said ≡ Section name)) ((name : List ℕ) × (label ≡ plain name)) result }
{
    let AsmName { name, ordinal } = label;
    match ordinal {
        None => Ok(AsmLine::Section(name)),
        Some(_) => Err(End::Fault(TextReason::Syntax)),
    }
}

/// The name of a section, which has no ordinal.
pub(crate) fn read_section(alloc: Global, text: &[u8]) -> Result<AsmLine, End<TextReason>>
    ensures { Answers (IsSection text.now) ((said : AsmLine) × IsSection text.now said) result }
{
    match read_label(alloc, text) {
        Ok(label) => section_line(label),
        Err(End::Fault(_)) => Err(End::Fault(TextReason::Syntax)),
        Err(End::Memory) => Err(End::Memory),
    }
}
