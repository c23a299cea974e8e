//! Directives of addresses and differences.

ghost use Rattle.std.specs.Prelude.{◌≡◌};
ghost use Rattle.asm_lines.specs.Expressions.{HasExpressionShape, IsExpression, Tells};
ghost use Rattle.a64_forms.specs.declared.form.Numbers.TheVariants.{Any, Fitting};
ghost use Rattle.asm_lines.specs.declared.line.AsmExpr.{AsmExpr};
ghost use Rattle.asm_lines.specs.declared.line.AsmItem.TheVariants.{Entry, QuadDiff, WordDiff};
ghost use Rattle.asm_lines.specs.declared.line.AsmLine.{AsmLine};
ghost use Rattle.asm_lines.specs.declared.line.AsmLine.TheVariants.{Item};
ghost use Rattle.asm_lines.specs.declared.line.AsmName.{AsmName};
ghost use Rattle.asm_directives.specs.Answers.{Answers};
ghost use Rattle.asm_directives.specs.Directives.{IsNarrow, IsQuad, IsWord};
ghost use Rattle.asm_directives.specs.Operands.{IsDifference, IsDistance};

use crate::difference::{inside_quarter, read_difference, read_distance};
use crate::number::is_number;
use asm_lines::{AsmExpr, AsmItem, AsmLine, read_expression};
use asm_read::TextReason;
use gr_base::End;
use std::alloc::Global;

fn read_quad_difference(alloc: Global, text: &[u8]) -> Result<AsmLine, End<TextReason>>
    ensures { Answers (λ (said : AsmLine). (first : AsmName) × (second : AsmExpr) × IsDifference Fitting text.now first second × (said ≡ Item (QuadDiff first second.label second.offset))) ((first : AsmName) × (second : AsmExpr) × IsDifference Any text.now first second) result }
{
    match read_difference(alloc, text) {
        Ok((first, AsmExpr { label, offset })) => {
            Ok(AsmLine::Item(AsmItem::QuadDiff(first, label, offset)))
        }
        Err(end) => Err(end),
    }
}

/// What a text says that isn't an expression for this reason.
fn read_no_address(
    alloc: Global,
    text: &[u8],
    reason: TextReason,
) -> Result<AsmLine, End<TextReason>>
    requires none { (e : AsmExpr) → IsExpression text.now e → ⊥ }
    requires tells { Tells reason (HasExpressionShape text.now) }
    ensures { Answers (IsQuad Fitting text.now) ((said : AsmLine) × IsQuad Any text.now said) result }
{
    if is_number(reason) {
        return Err(End::Fault(TextReason::Number));
    }
    read_quad_difference(alloc, text)
}

/// An address or a difference of eight bytes.
pub(crate) fn read_quad(alloc: Global, text: &[u8]) -> Result<AsmLine, End<TextReason>>
    ensures { Answers (IsQuad Fitting text.now) ((said : AsmLine) × IsQuad Any text.now said) result }
{
    match read_expression(alloc, text) {
        Ok(e) => Ok(AsmLine::Item(AsmItem::Quad(e))),
        Err(End::Fault(reason)) => read_no_address(alloc, text, reason),
        Err(End::Memory) => Err(End::Memory),
    }
}

fn read_word_difference(alloc: Global, text: &[u8]) -> Result<AsmLine, End<TextReason>>
    ensures { Answers (λ (said : AsmLine). (first : AsmName) × (second : AsmExpr) × IsDifference Fitting text.now first second × (said ≡ Item (WordDiff first second.label second.offset))) ((first : AsmName) × (second : AsmExpr) × IsDifference Any text.now first second) result }
{
    match read_difference(alloc, text) {
        Ok((first, AsmExpr { label, offset })) => {
            Ok(AsmLine::Item(AsmItem::WordDiff(first, label, offset)))
        }
        Err(end) => Err(end),
    }
}

fn read_entry(alloc: Global, size: u8, scale: u8, text: &[u8]) -> Result<AsmLine, End<TextReason>>
    ensures { Answers (λ (said : AsmLine). (first second : AsmName) × IsDistance text.now first second × (said ≡ Item (Entry size scale first second))) ((first second : AsmName) × IsDistance text.now first second) result }
{
    match read_distance(alloc, text) {
        Ok((first, second)) => Ok(AsmLine::Item(AsmItem::Entry(size, scale, first, second))),
        Err(end) => Err(end),
    }
}

/// A difference of four bytes, or one divided by 4.
pub(crate) fn read_word(alloc: Global, text: &[u8]) -> Result<AsmLine, End<TextReason>>
    ensures { Answers (IsWord Fitting text.now) ((said : AsmLine) × IsWord Any text.now said) result }
{
    match inside_quarter(text) {
        Some(inside) => read_entry(alloc, 4, 4, inside),
        None => read_word_difference(alloc, text),
    }
}

/// A difference of one byte or two, perhaps divided by 4.
pub(crate) fn read_narrow(alloc: Global, size: u8, text: &[u8]) -> Result<AsmLine, End<TextReason>>
    ensures { Answers (IsNarrow size text.now) ((said : AsmLine) × IsNarrow size text.now said) result }
{
    match inside_quarter(text) {
        Some(inside) => read_entry(alloc, size, 4, inside),
        None => read_entry(alloc, size, 1, text),
    }
}
