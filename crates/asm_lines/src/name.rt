//! Names, bare and between quotes.

ghost use Rattle.std.specs.Prelude.{◌≡◌, ◌++◌, ◌∷◌, ◌↔◌, [], true, ℕ, List, Err, IsTrue, IsUtf8, IfOk, IfSome, IfNone, MatchResult};
ghost use Rattle.std.specs.List.{flat_map, list_all};
ghost use Rattle.gr_base.specs.declared.end.End.TheVariants as ends;
ghost use Rattle.asm_read.specs.declared.fault.TextReason.{TextReason};
ghost use Rattle.asm_read.specs.declared.fault.TextReason.TheVariants.{Syntax};
ghost use Rattle.asm_lines.specs.Labels.{HasName, IsBare, Stops, belongs, escaped};
ghost use Rattle.asm_lines.specs.declared.run.Class.TheVariants.{Bare};

use crate::run::{Class, begins_bare, behind, split_run};
use asm_read::TextReason;
use gr_base::{Bytes, End, Text};
use std::alloc::{AllocError, Global};
use std::str;

/// The byte that a backslash and the front of a text write, and what stands behind it.
fn split_code(text: &[u8]) -> Option<(u8, &[u8])>
    ensures found { IfSome result (λ x. 92 ∷ text.now ≡ escaped x.0 ++ x.1.now) }
    ensures none { IfNone result ((b : ℕ) (behind : List ℕ) → 92 ∷ text.now ≡ escaped b ++ behind → ⊥) }
{
    let (code, behind) = text.split_first()?;
    if *code == b'n' {
        return Some((b'\n', behind));
    }
    if *code == b'"' || *code == b'\\' {
        return Some((*code, behind));
    }
    None
}

/// A byte as it is written between quotes, and what stands behind it.
fn split_escaped(text: &[u8]) -> Option<(u8, &[u8])>
    ensures found { IfSome result (λ x. text.now ≡ escaped x.0 ++ x.1.now) }
    ensures none { IfNone result ((b : ℕ) (behind : List ℕ) → text.now ≡ escaped b ++ behind → ⊥) }
{
    let (first, behind) = text.split_first()?;
    if *first == b'\\' {
        return split_code(behind);
    }
    if *first == b'"' || *first == b'\n' {
        return None;
    }
    Some((*first, behind))
}

/// Reads the bytes of a name as they are written between quotes, and gives what stands behind them.
fn read_inside<'a>(name: &mut Bytes, text: &'a [u8]) -> Result<&'a [u8], AllocError>
    ensures read { IfOk result (λ rest. (done : List ℕ) × (name.new ≡ name.old ++ done) × (text.now ≡ flat_map escaped done ++ rest.now)) }
    ensures stops { IfOk result (λ rest. (b : ℕ) (behind : List ℕ) → rest.now ≡ escaped b ++ behind → ⊥) }
{
    let mut rest = text;
    while let Some((byte, behind)) = split_escaped(rest) {
        name.push(byte)?;
        rest = behind;
    }
    Ok(rest)
}

/// Reads a name up to the quote that closes, and gives what stands behind that.
fn read_quoted<'a>(name: &mut Bytes, text: &'a [u8]) -> Result<&'a [u8], End<TextReason>>
    ensures found { IfOk result (λ rest. (more : List ℕ) × (name.new ≡ name.old ++ more) × (text.now ≡ flat_map escaped more ++ 34 ∷ rest.now)) }
    ensures only { (more rest : List ℕ) → text.now ≡ flat_map escaped more ++ 34 ∷ rest → MatchResult result (λ found. (found.now ≡ rest) × (name.new ≡ name.old ++ more)) (λ e. e ≡ ends.Memory) }
    ensures reason { (reason : TextReason) → result ≡ Err (ends.Fault reason) → reason ≡ Syntax }
{
    let rest = read_inside(name, text)?;
    match behind(rest, b"\"") {
        Some(outside) => Ok(outside),
        None => Err(End::Fault(TextReason::Syntax)),
    }
}

fn is_bare(word: &[u8]) -> bool
    requires { list_all (λ b. belongs Bare b) word.now ≡ true }
    ensures { IsTrue result ↔ IsBare word.now }
{
    match word {
        [] => false,
        [first, ..] => begins_bare(*first),
    }
}

/// Reads the bare name at the front of a text, and gives what stands behind it.
fn read_bare<'a>(name: &mut Bytes, text: &'a [u8]) -> Result<&'a [u8], End<TextReason>>
    ensures found { IfOk result (λ rest. (bare : List ℕ) × (text.now ≡ bare ++ rest.now) × IsBare bare × (name.new ≡ name.old ++ bare)) }
    ensures only { (bare rest : List ℕ) → text.now ≡ bare ++ rest → IsBare bare → Stops Bare rest → MatchResult result (λ found. (found.now ≡ rest) × (name.new ≡ name.old ++ bare)) (λ e. e ≡ ends.Memory) }
    ensures reason { (reason : TextReason) → result ≡ Err (ends.Fault reason) → reason ≡ Syntax }
{
    let (bare, rest) = split_run(Class::Bare, text);
    if !is_bare(bare) {
        return Err(End::Fault(TextReason::Syntax));
    }
    name.extend_from_slice(bare)?;
    Ok(rest)
}

/// Reads the name at the front of a text, and gives what stands behind it.
pub(crate) fn read_name<'a>(name: &mut Bytes, text: &'a [u8]) -> Result<&'a [u8], End<TextReason>>
    requires { name.old ≡ [] }
    ensures found { IfOk result (λ rest. HasName text.now name.new rest.now) }
    ensures only { (other rest : List ℕ) → HasName text.now other rest → Stops Bare rest → MatchResult result (λ found. (found.now ≡ rest) × (name.new ≡ other)) (λ e. e ≡ ends.Memory) }
    ensures reason { (reason : TextReason) → result ≡ Err (ends.Fault reason) → reason ≡ Syntax }
{
    match behind(text, b"\"") {
        Some(inside) => read_quoted(name, inside),
        None => read_bare(name, text),
    }
}

/// The name as a text, if it is UTF-8.
pub(crate) fn text_of(alloc: Global, name: &[u8]) -> Result<Text, End<TextReason>>
    ensures found { IfOk result (λ text. (text ≡ name.now) × IsUtf8 name.now) }
    ensures reason { (reason : TextReason) → result ≡ Err (ends.Fault reason) → (reason ≡ Syntax) × (IsUtf8 name.now → ⊥) }
{
    match str::from_utf8(name) {
        Ok(text) => Ok(Text::from_str(alloc, text)?),
        Err(_) => Err(End::Fault(TextReason::Syntax)),
    }
}
