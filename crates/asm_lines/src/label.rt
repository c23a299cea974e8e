//! Labels.

ghost use Rattle.std.specs.Prelude.{◌≡◌, ◌++◌, ◌↔◌, [], ℕ, List, Option, Err, Some, IfOk, IfSome, IsSomeAnd, IsTrue, MatchResult, slice_index};
ghost use Rattle.gr_base.specs.declared.end.End.TheVariants as ends;
ghost use Rattle.asm_read.specs.declared.fault.TextReason.{TextReason};
ghost use Rattle.asm_read.specs.declared.fault.TextReason.TheVariants.{Syntax};
ghost use Rattle.asm_lines.specs.declared.line.AsmName.{AsmName};
ghost use Rattle.asm_lines.specs.Labels.{AreOrdinal, EndsLabel, HasFront, IsLabel, IsOrdinal};

use crate::line::AsmName;
use crate::name::{read_name, text_of};
use crate::run::{Class, behind, split_run};
use a64_forms::read_number;
use asm_read::TextReason;
use gr_base::{Bytes, End};
use std::alloc::Global;

fn begins_zero(digits: &[u8]) -> bool
    ensures { IsTrue result ↔ (slice_index digits.now 0 ≡ 48) }
{
    matches!(digits, [b'0', ..])
}

fn ordinal_of(digits: &[u8]) -> Option<u64>
    ensures { (k : ℕ) → (result ≡ Some k) ↔ AreOrdinal digits.now k }
{
    if begins_zero(digits) {
        return None;
    }
    read_number(digits)
}

fn read_digits(text: &[u8]) -> Option<(Option<u64>, &[u8])>
    ensures found { IfSome result (λ x. (digits : List ℕ) × (k : ℕ) × (text.now ≡ digits ++ x.1.now) × (x.0 ≡ Some k) × AreOrdinal digits k) }
    ensures only { (digits rest : List ℕ) (k : ℕ) → text.now ≡ digits ++ rest → AreOrdinal digits k → EndsLabel rest → IsSomeAnd result (λ x. (x.0 ≡ Some k) × (x.1.now ≡ rest)) }
{
    let (digits, rest) = split_run(Class::Digit, text);
    match ordinal_of(digits) {
        Some(ordinal) => Some((Some(ordinal), rest)),
        None => None,
    }
}

/// The ordinal behind a name, if one is written, and what stands behind it.
fn read_ordinal(text: &[u8]) -> Option<(Option<u64>, &[u8])>
    ensures found { IfSome result (λ x. (word : List ℕ) × (text.now ≡ word ++ x.1.now) × IsOrdinal word x.0) }
    ensures only { (word rest : List ℕ) (ordinal : Option ℕ) → text.now ≡ word ++ rest → IsOrdinal word ordinal → EndsLabel rest → IsSomeAnd result (λ x. (x.0 ≡ ordinal) × (x.1.now ≡ rest)) }
{
    match behind(text, b"#") {
        Some(digits) => read_digits(digits),
        None => Some((None, text)),
    }
}

/// Reads the name at the front of a text, and gives its ordinal, if it has one, and what stands behind.
pub(crate) fn read_front<'a>(
    name: &mut Bytes,
    text: &'a [u8],
) -> Result<(Option<u64>, &'a [u8]), End<TextReason>>
    requires { name.old ≡ [] }
    ensures found { IfOk result (λ x. HasFront text.now name.new x.0 x.1.now) }
    ensures only { (other rest : List ℕ) (ordinal : Option ℕ) → HasFront text.now other ordinal rest → EndsLabel rest → MatchResult result (λ x. (x.0 ≡ ordinal) × (x.1.now ≡ rest) × (name.new ≡ other)) (λ e. e ≡ ends.Memory) }
    ensures reason { (reason : TextReason) → result ≡ Err (ends.Fault reason) → reason ≡ Syntax }
{
    let rest = read_name(name, text)?;
    match read_ordinal(rest) {
        Some(front) => Ok(front),
        None => Err(End::Fault(TextReason::Syntax)),
    }
}

/// The label that a word is.
pub fn read_label(alloc: Global, word: &[u8]) -> Result<AsmName, End<TextReason>>
    // What is read is the label that the word is.
    ensures found { IfOk result (IsLabel word.now) }
    // A label is read, unless memory runs out.
    ensures only { (label : AsmName) → IsLabel word.now label → MatchResult result (λ found. found ≡ label) (λ e. e ≡ ends.Memory) }
    ensures reason { (reason : TextReason) → result ≡ Err (ends.Fault reason) → reason ≡ Syntax }
{
    let mut name = Bytes::new(alloc);
    let (ordinal, rest) = read_front(&mut name, word)?;
    if !rest.is_empty() {
        return Err(End::Fault(TextReason::Syntax));
    }
    let name = text_of(alloc, name.as_slice())?;
    Ok(AsmName { name, ordinal })
}

/// The label at the front of a text, up to its end or to a sign, and what stands behind it.
pub fn split_label(alloc: Global, text: &[u8]) -> Result<(AsmName, &[u8]), End<TextReason>>
    // What is read is the label that stands first.
    ensures found { IfOk result (λ x. (label : List ℕ) × (text.now ≡ label ++ x.1.now) × IsLabel label x.0) }
    // A label ahead of the end or of a sign is read, unless memory runs out.
    ensures only { (label rest : List ℕ) (name : AsmName) → text.now ≡ label ++ rest → IsLabel label name → EndsLabel rest → MatchResult result (λ x. (x.0 ≡ name) × (x.1.now ≡ rest)) (λ e. e ≡ ends.Memory) }
    ensures reason { (reason : TextReason) → result ≡ Err (ends.Fault reason) → reason ≡ Syntax }
{
    let mut name = Bytes::new(alloc);
    let (ordinal, rest) = read_front(&mut name, text)?;
    let name = text_of(alloc, name.as_slice())?;
    Ok((AsmName { name, ordinal }, rest))
}
