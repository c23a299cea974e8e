//! Numbers of directives.

ghost use Rattle.std.specs.Prelude.{◌≡◌, ◌<◌, ◌≤◌, ◌^◌, ◌↔◌, ℕ, if◌then◌else◌, None, Some, SomeIff, IsSome, IsTrue};
ghost use Rattle.a64_forms.specs.Number.{IsNumber, IsNumberWord};
ghost use Rattle.a64_inst.specs.Kinds.{operand_kind};
ghost use Rattle.asm_read.specs.declared.fault.TextReason.TheVariants.{Number, Syntax};
ghost use Rattle.asm_lines.specs.Expressions.{Tells};
ghost use Rattle.asm_directives.specs.Directives.{IsAlignment, IsOpenWord, IsResidue};

use a64_forms::{is_number_word, read_number};
use a64_inst::operand_kind;
use asm_read::TextReason;

/// A page, which bounds alignments and residues.
const PAGE: u64 = 4096;

pub(crate) fn is_number(reason: TextReason) -> bool
    ensures { IsTrue result ↔ (reason ≡ Number) }
{
    matches!(reason, TextReason::Number)
}

/// Why a word isn't a number that is wanted.
pub(crate) fn number_reason(word: &[u8]) -> TextReason
    ensures { Tells result (IsNumberWord word.now) }
{
    if is_number_word(word) {
        return TextReason::Number;
    }
    TextReason::Syntax
}

/// Why a number and a text that isn't what is wanted for this reason aren't, together.
pub(crate) fn joint_reason(number: &[u8], reason: TextReason) -> TextReason
    ensures number { reason ≡ Number → Tells result (IsNumberWord number.now) }
    ensures other { (reason ≡ Number → ⊥) → result ≡ Syntax }
{
    if is_number(reason) {
        return number_reason(number);
    }
    TextReason::Syntax
}

/// Why two words aren't numbers that are wanted.
pub(crate) fn numbers_reason(first: &[u8], second: &[u8]) -> TextReason
    ensures { Tells result (IsNumberWord first.now × IsNumberWord second.now) }
{
    if is_number_word(first) {
        return number_reason(second);
    }
    TextReason::Syntax
}

fn kept(holds: bool, number: u64) -> Option<u64>
    ensures { result ≡ (if holds then Some number else None) }
{
    if holds {
        return Some(number);
    }
    None
}

fn is_upto(most: u64, number: u64) -> bool
    ensures { IsTrue result ↔ (number ≤ most) }
{
    number <= most
}

/// The number that a word spells, at most this.
pub(crate) fn read_upto(most: u64, word: &[u8]) -> Option<u64>
    ensures { (n : ℕ) → (result ≡ Some n) ↔ (IsNumber word.now n × (n ≤ most)) }
{
    match read_number(word) {
        Some(number) => kept(is_upto(most, number), number),
        None => None,
    }
}

fn is_alignment(number: u64) -> bool
    ensures { IsTrue result ↔ IsAlignment number }
{
    number.is_power_of_two() && number <= PAGE
}

/// The alignment that a word spells.
pub(crate) fn read_alignment(word: &[u8]) -> Option<u64>
    ensures { (n : ℕ) → (result ≡ Some n) ↔ (IsNumber word.now n × IsAlignment n) }
{
    match read_number(word) {
        Some(number) => kept(is_alignment(number), number),
        None => None,
    }
}

fn is_residue(align: u64, number: u64) -> bool
    requires { IsAlignment align }
    ensures { IsTrue result ↔ IsResidue align number }
{
    number < PAGE && number % align == 0
}

/// The place in a page that a word spells and that suits the alignment.
pub(crate) fn read_residue(align: u64, word: &[u8]) -> Option<u64>
    requires { IsAlignment align }
    ensures { (n : ℕ) → (result ≡ Some n) ↔ (IsNumber word.now n × IsResidue align n) }
{
    match read_number(word) {
        Some(number) => kept(is_residue(align, number), number),
        None => None,
    }
}

fn fitting(number: u64) -> Option<u32>
    ensures { SomeIff result (number < 2 ^ 32) number }
{
    if number < 1 << 32 {
        return Some(number as u32);
    }
    None
}

/// The word of four bytes that a word of text spells.
pub(crate) fn read_word(word: &[u8]) -> Option<u32>
    ensures { (n : ℕ) → (result ≡ Some n) ↔ (IsNumber word.now n × (n < 2 ^ 32)) }
{
    match read_number(word) {
        Some(number) => fitting(number),
        None => None,
    }
}

fn opened(word: u32) -> Option<u32>
    ensures { SomeIff result (IsSome (operand_kind word)) word }
{
    if operand_kind(word).is_some() {
        return Some(word);
    }
    None
}

/// The word with an operand that a word of text spells.
pub(crate) fn read_open_word(word: &[u8]) -> Option<u32>
    ensures { (n : ℕ) → (result ≡ Some n) ↔ (IsNumber word.now n × IsOpenWord n) }
{
    match read_word(word) {
        Some(number) => opened(number),
        None => None,
    }
}
