//! Lines that begin with a word of patch text's own: `insert`, `function` and `end`.

ghost use Rattle.std.specs.Prelude.{◌≡◌, ◌∷◌, [], None, IfOk, IfErr, IsUtf8};
ghost use Rattle.gr_base.specs.declared.end.End.TheVariants.{Memory};
ghost use Rattle.asm_read.specs.Identifier.{identifier_of};
ghost use Rattle.patch_lines.specs.Values.{typed_line};
ghost use Rattle.patch_table.specs.OwnLines.{FunctionSays, InsertSays, NumberSays, OwnSays, function_line, is_end, is_function, is_insert, is_own, label_name};

use a64_forms::{is_number_word, read_number};
use asm_lines::{AsmName, read_label};
use asm_read::read_uuid;
use gr_base::{Bytes, End};
use patch_lines::{LabelName, PatchFault, PatchLine, Spot};
use std::alloc::Global;

fn is_insert(word: &[u8]) -> bool
    ensures { result ≡ is_insert word.now }
{
    word == b"insert".as_slice()
}

fn is_function(word: &[u8]) -> bool
    ensures { result ≡ is_function word.now }
{
    word == b"function".as_slice()
}

fn is_end(word: &[u8]) -> bool
    ensures { result ≡ is_end word.now }
{
    word == b"end".as_slice()
}

/// Whether the first word is one of these.
pub(crate) fn is_own(words: &[Bytes]) -> bool
    ensures { result ≡ is_own words.now }
{
    match words {
        [] => false,
        [first, ..] => {
            let first = first.as_slice();
            is_insert(first) || is_function(first) || is_end(first)
        }
    }
}

/// The same label.
pub(crate) fn label_name(label: AsmName) -> LabelName
    ensures { result ≡ label_name label }
{
    let AsmName { name, ordinal } = label;
    LabelName { name, ordinal }
}

/// What an insert at this place says, by the word of its offset.
fn number_line(spot: Spot, number: &[u8]) -> PatchLine
    ensures says { NumberSays number.now spot result }
    ensures typed { typed_line result }
{
    if let Some(offset) = read_number(number) {
        return PatchLine::Insert(spot, offset);
    }
    if is_number_word(number) {
        return PatchLine::UnfitInsert;
    }
    PatchLine::Other
}

/// What an insert says whose place is no identifier.
fn read_label_insert(
    alloc: Global,
    place: &[u8],
    number: &[u8],
) -> Result<PatchLine, End<PatchFault>>
    requires { None ≡ identifier_of place.now }
    ensures says { IfOk result (InsertSays place.now number.now) }
    ensures typed { IfOk result typed_line }
    ensures memory { IfErr result (λ e. e ≡ Memory) }
{
    match read_label(alloc, place) {
        Ok(label) => Ok(number_line(Spot::Symbol(label_name(label)), number)),
        Err(End::Fault(_)) => Ok(PatchLine::Other),
        Err(End::Memory) => Err(End::Memory),
    }
}

fn read_insert(alloc: Global, place: &[u8], number: &[u8]) -> Result<PatchLine, End<PatchFault>>
    ensures says { IfOk result (InsertSays place.now number.now) }
    ensures typed { IfOk result typed_line }
    ensures memory { IfErr result (λ e. e ≡ Memory) }
{
    match read_uuid(place) {
        Some(id) => Ok(number_line(Spot::Block(id), number)),
        None => read_label_insert(alloc, place, number),
    }
}

fn function_line(label: AsmName) -> PatchLine
    ensures value { result ≡ function_line label }
    ensures typed { IsUtf8 label.name → typed_line result }
{
    let AsmName { name, ordinal } = label;
    match ordinal {
        None => PatchLine::Function(name),
        Some(_) => PatchLine::Other,
    }
}

fn read_function(alloc: Global, word: &[u8]) -> Result<PatchLine, End<PatchFault>>
    ensures says { IfOk result (FunctionSays word.now) }
    ensures typed { IfOk result typed_line }
    ensures memory { IfErr result (λ e. e ≡ Memory) }
{
    match read_label(alloc, word) {
        Ok(label) => Ok(function_line(label)),
        Err(End::Fault(_)) => Ok(PatchLine::Other),
        Err(End::Memory) => Err(End::Memory),
    }
}

fn one_word(first: &[u8]) -> PatchLine
    ensures says { OwnSays (first.now ∷ []) result }
    ensures typed { typed_line result }
{
    if is_end(first) {
        return PatchLine::End;
    }
    PatchLine::Other
}

fn two_words(alloc: Global, first: &[u8], name: &[u8]) -> Result<PatchLine, End<PatchFault>>
    ensures says { IfOk result (OwnSays (first.now ∷ name.now ∷ [])) }
    ensures typed { IfOk result typed_line }
    ensures memory { IfErr result (λ e. e ≡ Memory) }
{
    if is_function(first) {
        return read_function(alloc, name);
    }
    Ok(PatchLine::Other)
}

fn three_words(
    alloc: Global,
    first: &[u8],
    place: &[u8],
    number: &[u8],
) -> Result<PatchLine, End<PatchFault>>
    ensures says { IfOk result (OwnSays (first.now ∷ place.now ∷ number.now ∷ [])) }
    ensures typed { IfOk result typed_line }
    ensures memory { IfErr result (λ e. e ≡ Memory) }
{
    if is_insert(first) {
        return read_insert(alloc, place, number);
    }
    Ok(PatchLine::Other)
}

/// What words say that begin with one of patch text's own.
pub(crate) fn read_own(alloc: Global, words: &[Bytes]) -> Result<PatchLine, End<PatchFault>>
    ensures says { IfOk result (OwnSays words.now) }
    ensures typed { IfOk result typed_line }
    ensures memory { IfErr result (λ e. e ≡ Memory) }
{
    match words {
        [] => Ok(PatchLine::Other),
        [first] => Ok(one_word(first.as_slice())),
        [first, name] => two_words(alloc, first.as_slice(), name.as_slice()),
        [first, place, number] => three_words(
            alloc,
            first.as_slice(),
            place.as_slice(),
            number.as_slice(),
        ),
        [_, _, _, _, ..] => Ok(PatchLine::Other),
    }
}
