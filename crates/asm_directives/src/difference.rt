//! Differences of labels.

ghost use Rattle.std.specs.Prelude.{◌≡◌, ◌∷◌, ◌++◌, ℕ, List, Err, IfOk, MatchOption, MatchResult, codes};
ghost use Rattle.gr_base.specs.declared.end.End.TheVariants as ends;
ghost use Rattle.asm_read.specs.declared.fault.TextReason.{TextReason};
ghost use Rattle.asm_read.specs.declared.fault.TextReason.TheVariants.{Syntax};
ghost use Rattle.asm_lines.specs.Labels.{IsLabel};
ghost use Rattle.a64_forms.specs.declared.form.Numbers.TheVariants.{Any, Fitting};
ghost use Rattle.asm_lines.specs.declared.line.AsmExpr.{AsmExpr};
ghost use Rattle.asm_lines.specs.declared.line.AsmName.{AsmName};
ghost use Rattle.asm_directives.specs.Answers.{Answers};
ghost use Rattle.asm_directives.specs.Operands.{IsDifference, IsDistance};

use asm_lines::{AsmExpr, AsmName, read_expression, read_label, split_label};
use asm_read::TextReason;
use gr_base::End;
use std::alloc::Global;

/// What stands behind a minus sign.
fn behind_minus(text: &[u8]) -> Option<&[u8]>
    ensures { MatchOption result ((behind : List ℕ) → text.now ≡ 45 ∷ behind → ⊥) (λ behind. text.now ≡ 45 ∷ behind.now) }
{
    text.strip_prefix(b"-")
}

/// The label ahead of a minus sign, and what stands behind that.
fn split_minus(alloc: Global, text: &[u8]) -> Result<(AsmName, &[u8]), End<TextReason>>
    ensures found { IfOk result (λ x. (label : List ℕ) × (text.now ≡ label ++ 45 ∷ x.1.now) × IsLabel label x.0) }
    ensures only { (label behind : List ℕ) (name : AsmName) → text.now ≡ label ++ 45 ∷ behind → IsLabel label name → MatchResult result (λ x. (x.0 ≡ name) × (x.1.now ≡ behind)) (λ end. end ≡ ends.Memory) }
    ensures reason { (reason : TextReason) → result ≡ Err (ends.Fault reason) → reason ≡ Syntax }
{
    match split_label(alloc, text) {
        Ok((first, rest)) => match behind_minus(rest) {
            Some(behind) => Ok((first, behind)),
            None => Err(End::Fault(TextReason::Syntax)),
        },
        Err(End::Fault(_)) => Err(End::Fault(TextReason::Syntax)),
        Err(End::Memory) => Err(End::Memory),
    }
}

/// A difference, with the offset at its second label.
pub(crate) fn read_difference(
    alloc: Global,
    text: &[u8],
) -> Result<(AsmName, AsmExpr), End<TextReason>>
    ensures { Answers (λ (x : AsmName × AsmExpr). IsDifference Fitting text.now x.0 x.1) ((first : AsmName) × (second : AsmExpr) × IsDifference Any text.now first second) result }
{
    match split_minus(alloc, text) {
        Ok((first, behind)) => match read_expression(alloc, behind) {
            Ok(second) => Ok((first, second)),
            Err(end) => Err(end),
        },
        Err(end) => Err(end),
    }
}

/// A difference without an offset.
pub(crate) fn read_distance(
    alloc: Global,
    text: &[u8],
) -> Result<(AsmName, AsmName), End<TextReason>>
    ensures { Answers (λ (x : AsmName × AsmName). IsDistance text.now x.0 x.1) ((first second : AsmName) × IsDistance text.now first second) result }
{
    match split_minus(alloc, text) {
        Ok((first, behind)) => match read_label(alloc, behind) {
            Ok(second) => Ok((first, second)),
            Err(end) => Err(end),
        },
        Err(end) => Err(end),
    }
}

fn behind_bracket(text: &[u8]) -> Option<&[u8]>
    ensures { MatchOption result ((behind : List ℕ) → text.now ≡ 40 ∷ behind → ⊥) (λ behind. text.now ≡ 40 ∷ behind.now) }
{
    text.strip_prefix(b"(")
}

fn before_quarter(text: &[u8]) -> Option<&[u8]>
    ensures { MatchOption result ((front : List ℕ) → text.now ≡ front ++ codes ")/4" → ⊥) (λ front. text.now ≡ front.now ++ codes ")/4") }
{
    text.strip_suffix(b")/4")
}

/// What stands in the brackets of a difference that is divided by 4.
pub(crate) fn inside_quarter(text: &[u8]) -> Option<&[u8]>
    ensures { MatchOption result ((inside : List ℕ) → text.now ≡ 40 ∷ inside ++ codes ")/4" → ⊥) (λ inside. text.now ≡ 40 ∷ inside.now ++ codes ")/4") }
{
    match behind_bracket(text) {
        Some(rest) => before_quarter(rest),
        None => None,
    }
}
