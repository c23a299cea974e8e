//! Label expressions.

ghost use Rattle.std.specs.Prelude.{◌≡◌, ◌≢◌, ◌↔◌, [], ℤ, Err, Ok, Some, IfOk, IsTrue, MatchResult};
ghost use Rattle.gr_base.specs.declared.end.End.TheVariants as ends;
ghost use Rattle.asm_read.specs.declared.fault.TextReason.{TextReason};
ghost use Rattle.a64_forms.specs.Number.{IsNumberWord};
ghost use Rattle.asm_lines.specs.declared.line.AsmExpr.{AsmExpr};
ghost use Rattle.asm_lines.specs.Expressions.{HasExpressionShape, HasOffsetShape, IsExpression, IsOffset, IsSigned, Tells};

use crate::label::read_front;
use crate::line::{AsmExpr, AsmName};
use crate::name::text_of;
use crate::run::behind;
use a64_forms::{is_number_word, read_number};
use asm_read::TextReason;
use gr_base::{Bytes, End};
use std::alloc::Global;

/// Which way an offset goes.
#[derive(Clone, Copy, Debug, PartialEq, Eq)]
pub(crate) enum Sign {
    Plus,
    Minus,
}

fn offset_of(sign: Sign, digits: &[u8]) -> Option<i64>
    ensures { (offset : ℤ) → (result ≡ Some offset) ↔ IsSigned sign digits.now offset }
{
    let number = read_number(digits)?;
    match sign {
        Sign::Plus => 0i64.checked_add_unsigned(number),
        Sign::Minus => 0i64.checked_sub_unsigned(number),
    }
}

fn read_signed(sign: Sign, digits: &[u8]) -> Result<i64, End<TextReason>>
    ensures found { IfOk result (IsSigned sign digits.now) }
    ensures only { (offset : ℤ) → IsSigned sign digits.now offset → result ≡ Ok offset }
    ensures reason { (reason : TextReason) → result ≡ Err (ends.Fault reason) → Tells reason (IsNumberWord digits.now) }
{
    match offset_of(sign, digits) {
        Some(offset) => Ok(offset),
        None if is_number_word(digits) => Err(End::Fault(TextReason::Number)),
        None => Err(End::Fault(TextReason::Syntax)),
    }
}

/// The offset that a text is in which something stands.
fn read_written(text: &[u8]) -> Result<i64, End<TextReason>>
    requires { text.now ≢ [] }
    ensures found { IfOk result (IsOffset text.now) }
    ensures only { (offset : ℤ) → IsOffset text.now offset → result ≡ Ok offset }
    ensures reason { (reason : TextReason) → result ≡ Err (ends.Fault reason) → Tells reason (HasOffsetShape text.now) }
{
    match behind(text, b"+") {
        Some(digits) => read_signed(Sign::Plus, digits),
        None => match behind(text, b"-") {
            Some(digits) => read_signed(Sign::Minus, digits),
            None => Err(End::Fault(TextReason::Syntax)),
        },
    }
}

/// The offset that a text is.
fn read_offset(text: &[u8]) -> Result<i64, End<TextReason>>
    ensures found { IfOk result (IsOffset text.now) }
    ensures only { (offset : ℤ) → IsOffset text.now offset → result ≡ Ok offset }
    ensures reason { (reason : TextReason) → result ≡ Err (ends.Fault reason) → Tells reason (HasOffsetShape text.now) }
{
    match text {
        [] => Ok(0),
        [_, ..] => read_written(text),
    }
}

/// The label expression that a text is.
pub fn read_expression(alloc: Global, text: &[u8]) -> Result<AsmExpr, End<TextReason>>
    // What is read is the expression that the text is.
    ensures found { IfOk result (IsExpression text.now) }
    // An expression is read, unless memory runs out.
    ensures only { (e : AsmExpr) → IsExpression text.now e → MatchResult result (λ found. found ≡ e) (λ end. end ≡ ends.Memory) }
    // It is Number where another number would make it one, else Syntax.
    ensures reason { (reason : TextReason) → result ≡ Err (ends.Fault reason) → Tells reason (HasExpressionShape text.now) }
{
    let mut name = Bytes::new(alloc);
    let (ordinal, rest) = read_front(&mut name, text)?;
    let name = text_of(alloc, name.as_slice())?;
    let offset = read_offset(rest)?;
    let label = AsmName { name, ordinal };
    Ok(AsmExpr { label, offset })
}
