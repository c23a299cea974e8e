//! Lines of assembly in patch text.

ghost use Rattle.std.specs.Prelude.{◌≡◌, ℕ, List, if◌then◌else◌, IfOk, IfErr, IfSome, IsUtf8};
ghost use Rattle.std.specs.Option.{option_map};
ghost use Rattle.gr_base.specs.declared.end.End.TheVariants.{Memory};
ghost use Rattle.a64_forms.specs.Spelling.{held};
ghost use Rattle.asm_lines.specs.Lines.{IsFault, IsLine};
ghost use Rattle.asm_read.specs.Words.{HasWords};
ghost use Rattle.asm_read.specs.declared.fault.TextReason.TheVariants.{Number};
ghost use Rattle.sym_expr.specs.TableOk.{is_aimed, is_literal_row};
ghost use Rattle.gt_model.specs.Typed.{IsI64};
ghost use Rattle.patch_lines.specs.Values.{typed_line};
ghost use Rattle.patch_lines.specs.declared.line.PatchLine.TheVariants.{Other, UnfitWord};
ghost use Rattle.patch_table.specs.PatchLines.{AsmSays, ShapeSays, has_aim, is_number, item_line, label_line, label_sum, line_of, unfit_line, word_line};

use crate::own::label_name;
use a64_decode::decode;
use a64_forms::{Share, read_shape};
use a64_inst::{Inst, is_branch, operand_kind};
use asm_lines::{AsmExpr, AsmItem, AsmLine, AsmName, read_line, texts_of};
use asm_read::TextReason;
use asm_read::laws::one_split;
use gr_base::{Bytes, End};
use patch_lines::{LabelSum, PatchFault, PatchLine};
use std::alloc::Global;

/// ADR, ADRP and loads of literals.
fn is_literal_row(inst: &Inst) -> bool
    ensures { result ≡ is_literal_row inst.now }
{
    matches!(inst, Inst::AdrAdrp { .. } | Inst::Literal { .. })
}

/// A word that makes no sense without a target.
fn is_aimed(word: u32) -> bool
    ensures { result ≡ is_aimed word }
{
    match decode(word) {
        Some(inst) => is_branch(word) || is_literal_row(&inst),
        None => is_branch(word),
    }
}

fn has_aim(word: u32, target: &Option<AsmExpr>) -> bool
    ensures { result ≡ has_aim word target.now }
{
    match target {
        Some(_) => operand_kind(word).is_some(),
        None => !is_aimed(word),
    }
}

fn label_sum(expression: AsmExpr) -> LabelSum
    ensures value { result ≡ label_sum expression }
    ensures typed { IsI64 result.offset }
{
    let AsmExpr { label, offset } = expression;
    LabelSum {
        label: label_name(label),
        offset,
    }
}

fn label_target(target: Option<AsmExpr>) -> Option<LabelSum>
    ensures value { result ≡ option_map label_sum target }
    ensures typed { IfSome result (λ sum. IsI64 sum.offset) }
{
    match target {
        Some(expression) => Some(label_sum(expression)),
        None => None,
    }
}

fn word_line(word: u32, target: Option<AsmExpr>) -> PatchLine
    ensures value { result ≡ word_line word target }
    ensures typed { typed_line result }
{
    if has_aim(word, &target) {
        PatchLine::Word(word, label_target(target))
    } else {
        PatchLine::Other
    }
}

fn item_line(item: AsmItem) -> PatchLine
    ensures value { result ≡ item_line item }
    ensures typed { typed_line result }
{
    match item {
        AsmItem::Word(word, target) => word_line(word, target),
        _ => PatchLine::Other,
    }
}

fn label_line(label: AsmName) -> PatchLine
    ensures value { result ≡ label_line label }
    ensures typed { IsUtf8 label.name → typed_line result }
{
    let AsmName { name, ordinal } = label;
    match ordinal {
        None => PatchLine::Label(name),
        Some(_) => PatchLine::Other,
    }
}

/// A line of assembly as one of patch text.
fn line_of(said: AsmLine) -> PatchLine
    ensures value { result ≡ line_of said }
    ensures typed { (line : List ℕ) → IsLine line said → typed_line result }
{
    match said {
        AsmLine::Blank => PatchLine::Blank,
        AsmLine::Label(label) => label_line(label),
        AsmLine::Item(item) => item_line(item),
        _ => PatchLine::Other,
    }
}

fn unfit_word(bits: u32) -> PatchLine
    ensures value { result ≡ (if is_aimed bits then Other else UnfitWord) }
    ensures typed { typed_line result }
{
    if is_aimed(bits) {
        return PatchLine::Other;
    }
    PatchLine::UnfitWord
}

fn unfit_line(share: Share<'_>) -> PatchLine
    ensures value { result ≡ unfit_line (held share.entry) }
    ensures typed { typed_line result }
{
    match share.target {
        Some(_) => PatchLine::UnfitWord,
        None => unfit_word(share.bits),
    }
}

/// What a line says that is an instruction but for its numbers.
fn read_unfit(alloc: Global, line: &[u8], words: &[Bytes]) -> Result<PatchLine, End<PatchFault>>
    requires utf8 { IsUtf8 line.now }
    requires words { HasWords line.now words.now }
    requires fault { IsFault line.now Number }
    ensures says { IfOk result (ShapeSays line.now) }
    ensures typed { IfOk result typed_line }
    ensures memory { IfErr result (λ e. e ≡ Memory) }
{
    one_split();
    let texts = texts_of(alloc, words)?;
    match read_shape(texts.as_slice()) {
        Some(share) => Ok(unfit_line(share)),
        None => Ok(PatchLine::Other),
    }
}

fn is_number(reason: TextReason) -> bool
    ensures { result ≡ is_number reason }
{
    matches!(reason, TextReason::Number)
}

/// What a line says that is none of assembly for this reason.
fn read_faulty(
    alloc: Global,
    line: &[u8],
    words: &[Bytes],
    reason: TextReason,
) -> Result<PatchLine, End<PatchFault>>
    requires utf8 { IsUtf8 line.now }
    requires words { HasWords line.now words.now }
    requires fault { IsFault line.now reason }
    ensures says { IfOk result (AsmSays line.now) }
    ensures typed { IfOk result typed_line }
    ensures memory { IfErr result (λ e. e ≡ Memory) }
{
    if is_number(reason) {
        return read_unfit(alloc, line, words);
    }
    Ok(PatchLine::Other)
}

/// What a line of assembly says in patch text.
pub(crate) fn read_asm(
    alloc: Global,
    line: &[u8],
    words: &[Bytes],
) -> Result<PatchLine, End<PatchFault>>
    requires utf8 { IsUtf8 line.now }
    requires words { HasWords line.now words.now }
    ensures says { IfOk result (AsmSays line.now) }
    ensures typed { IfOk result typed_line }
    ensures memory { IfErr result (λ e. e ≡ Memory) }
{
    match read_line(alloc, line) {
        Ok(said) => Ok(line_of(said)),
        Err(End::Fault(reason)) => read_faulty(alloc, line, words, reason),
        Err(End::Memory) => Err(End::Memory),
    }
}
