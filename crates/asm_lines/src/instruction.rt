//! Instructions, with what they name in place of a number.

ghost use Rattle.std.specs.Prelude.{◌≡◌, Err, Option, IfOk, MatchResult};
ghost use Rattle.gr_base.specs.declared.end.End.TheVariants as ends;
ghost use Rattle.asm_read.specs.declared.fault.TextReason.{TextReason};
ghost use Rattle.asm_lines.specs.declared.line.AsmExpr.{AsmExpr};
ghost use Rattle.asm_lines.specs.declared.line.AsmItem.{AsmItem};
ghost use Rattle.asm_lines.specs.Expressions.{Tells};
ghost use Rattle.asm_lines.specs.Instructions.{HasAimedShape, HasInstructionShape, HasTargetShape, IsAimed, IsInstruction, IsTarget, aimed};

use crate::expression::read_expression;
use crate::label::read_label;
use crate::line::{AsmExpr, AsmItem};
use a64_forms::laws::one_form;
use a64_forms::{Aim, Target, read_shape, read_spelling};
use asm_read::TextReason;
use gr_base::{Bytes, End};
use std::alloc::Global;

/// What a text names.
fn read_aimed(alloc: Global, aim: Aim, text: &[u8]) -> Result<AsmExpr, End<TextReason>>
    ensures found { IfOk result (IsAimed aim text.now) }
    ensures only { (e : AsmExpr) → IsAimed aim text.now e → MatchResult result (λ found. found ≡ e) (λ end. end ≡ ends.Memory) }
    ensures reason { (reason : TextReason) → result ≡ Err (ends.Fault reason) → Tells reason (HasAimedShape aim text.now) }
{
    match aim {
        Aim::Label => {
            let label = read_label(alloc, text)?;
            Ok(AsmExpr { label, offset: 0 })
        }
        Aim::Expression => read_expression(alloc, text),
    }
}

/// What an instruction names, if anything.
fn read_target(
    alloc: Global,
    target: Option<Target<'_>>,
) -> Result<Option<AsmExpr>, End<TextReason>>
    ensures found { IfOk result (IsTarget (aimed target.entry)) }
    ensures only { (e : Option AsmExpr) → IsTarget (aimed target.entry) e → MatchResult result (λ found. found ≡ e) (λ end. end ≡ ends.Memory) }
    ensures reason { (reason : TextReason) → result ≡ Err (ends.Fault reason) → Tells reason (HasTargetShape (aimed target.entry)) }
{
    match target {
        None => Ok(None),
        Some(target) => {
            let named = read_aimed(alloc, target.aim, target.text)?;
            Ok(Some(named))
        }
    }
}

/// The word that texts spell.
fn read_exactly(alloc: Global, texts: &[Bytes]) -> Result<AsmItem, End<TextReason>>
    ensures found { IfOk result (IsInstruction texts.now) }
    ensures only { (item : AsmItem) → IsInstruction texts.now item → MatchResult result (λ found. found ≡ item) (λ end. end ≡ ends.Memory) }
{
    one_form();
    match read_spelling(texts) {
        None => Err(End::Fault(TextReason::Syntax)),
        Some(share) => {
            let target = read_target(alloc, share.target)?;
            Ok(AsmItem::Word(share.bits, target))
        }
    }
}

/// Why texts spell no word.
fn reason_of(alloc: Global, texts: &[Bytes]) -> Result<TextReason, End<TextReason>>
    ensures found { IfOk result (λ reason. Tells reason (HasInstructionShape texts.now)) }
    ensures refused { (reason : TextReason) → result ≡ Err (ends.Fault reason) → Tells reason (HasInstructionShape texts.now) }
{
    one_form();
    match read_shape(texts) {
        None => Ok(TextReason::Syntax),
        Some(share) => {
            let _named = read_target(alloc, share.target)?;
            Ok(TextReason::Number)
        }
    }
}

/// The word that texts spell, or why they spell none.
pub(crate) fn read_instruction(alloc: Global, texts: &[Bytes]) -> Result<AsmItem, End<TextReason>>
    ensures found { IfOk result (IsInstruction texts.now) }
    ensures only { (item : AsmItem) → IsInstruction texts.now item → MatchResult result (λ found. found ≡ item) (λ end. end ≡ ends.Memory) }
    ensures reason { (reason : TextReason) → result ≡ Err (ends.Fault reason) → Tells reason (HasInstructionShape texts.now) }
{
    match read_exactly(alloc, texts) {
        Ok(item) => Ok(item),
        Err(End::Memory) => Err(End::Memory),
        Err(End::Fault(_)) => {
            let reason = reason_of(alloc, texts)?;
            Err(End::Fault(reason))
        }
    }
}
