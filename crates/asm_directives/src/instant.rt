//! Directives of bytes and words.

ghost use Rattle.std.specs.Prelude.{◌≡◌, ◌≢◌, ◌⊎◌, []};
ghost use Rattle.gr_base.specs.declared.end.End.TheVariants as ends;
ghost use Rattle.hex.specs.declared.error.FromHexError.TheVariants.{OutOfMemory};
ghost use Rattle.asm_read.specs.declared.fault.TextReason.TheVariants.{Syntax};
ghost use Rattle.asm_lines.specs.declared.line.AsmItem.TheVariants as items;
ghost use Rattle.asm_lines.specs.declared.line.AsmLine.TheVariants.{Item};
ghost use Rattle.a64_forms.specs.declared.form.Numbers.TheVariants.{Any, Fitting};
ghost use Rattle.asm_lines.specs.declared.line.AsmLine.{AsmLine};
ghost use Rattle.asm_directives.specs.Answers.{Answers};
ghost use Rattle.asm_directives.specs.Directives.{IsHex, IsInst, IsZero};

use crate::number::{number_reason, read_upto, read_word};
use asm_lines::{AsmItem, AsmLine};
use asm_read::TextReason;
use gr_base::{Bytes, End};
use hex::FromHexError;
use std::alloc::Global;

/// The most zeros that one line writes.
const MOST_ZEROS: u64 = 1 << 24;

fn bytes_line(bytes: Vec<u8>) -> Result<AsmLine, End<TextReason>>
    ensures { Answers (λ (said : AsmLine). (bytes.items ≢ []) × (said ≡ Item (items.Bytes bytes.items))) (bytes.items ≢ []) result }
{
    if bytes.is_empty() {
        return Err(End::Fault(TextReason::Syntax));
    }
    Ok(AsmLine::Item(AsmItem::Bytes(Bytes::from_vec(bytes))))
}

fn hex_end(error: FromHexError) -> End<TextReason>
    ensures { (result ≡ ends.Memory) ⊎ ((result ≡ ends.Fault Syntax) × (error ≡ OutOfMemory → ⊥)) }
{
    match error {
        FromHexError::OutOfMemory => End::Memory,
        FromHexError::OddLength
        | FromHexError::InvalidStringLength
        | FromHexError::InvalidHexCharacter { .. } => End::Fault(TextReason::Syntax),
    }
}

/// Bytes by their digits.
pub(crate) fn read_hex(alloc: Global, text: &[u8]) -> Result<AsmLine, End<TextReason>>
    ensures { Answers (IsHex text.now) ((said : AsmLine) × IsHex text.now said) result }
{
    match hex::decode(alloc, text) {
        Ok(bytes) => bytes_line(bytes),
        Err(error) => Err(hex_end(error)),
    }
}

/// So many zeros.
pub(crate) fn read_zero(text: &[u8]) -> Result<AsmLine, End<TextReason>>
    ensures { Answers (IsZero Fitting text.now) ((said : AsmLine) × IsZero Any text.now said) result }
{
    match read_upto(MOST_ZEROS, text) {
        Some(count) => Ok(AsmLine::Item(AsmItem::Zero(count))),
        None => Err(End::Fault(number_reason(text))),
    }
}

/// A word by its number.
pub(crate) fn read_inst(text: &[u8]) -> Result<AsmLine, End<TextReason>>
    ensures { Answers (IsInst Fitting text.now) ((said : AsmLine) × IsInst Any text.now said) result }
{
    match read_word(text) {
        Some(word) => Ok(AsmLine::Item(AsmItem::Word(word, None))),
        None => Err(End::Fault(number_reason(text))),
    }
}
