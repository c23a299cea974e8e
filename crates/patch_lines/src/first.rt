//! The first pass over lines of patch text: forms, blocks, names and the number of instructions.

ghost use Rattle.std.specs.Prelude.{◌≡◌, ◌<◌, ◌+◌, ◌^◌, ℕ, List, [], ◌||◌, is_some, nat_le, if◌then◌else◌, Some, None, IfOk, length};
ghost use Rattle.std.specs.HashMap.{get_by_text};
ghost use Rattle.patch_lines.specs.Answers.{Tells, TellsEnd};
ghost use Rattle.patch_lines.specs.Faults.{first_pass, insert_block, is_name_in, is_symbol_name, is_word, line_fault, meaning_fault, most_words, reason_of};
ghost use Rattle.patch_lines.specs.Indexed.{Knows};
ghost use Rattle.patch_lines.specs.declared.fault.PatchReason.TheVariants.{NameTaken, TooMany};

use crate::fault::{PatchFault, PatchReason};
use crate::index::Index;
use crate::line::{PatchLine, Spot};
use crate::names::add_names;
use crate::place::{Place, after, is_outside, text_reason};
use crate::spot::insert_block;
use asm_read::TextReason;
use gr_base::End;
use indexmap::IndexMap;
use std::alloc::Global;

/// The most instructions of a text.
const MOST: u64 = 1_048_576;

/// A symbol of the module has the name.
fn has_symbol(index: &Index, name: &str) -> bool
    requires { Knows index.now }
    ensures { result ≡ is_symbol_name index.now.«module» name.now }
{
    match index.names.get(name) {
        Some(uses) => !uses.is_empty(),
        None => false,
    }
}

/// A symbol has the name, or it stands before.
fn is_taken(index: &Index, names: &IndexMap<String, ()>, name: &str) -> bool
    requires { Knows index.now }
    ensures { result ≡ is_symbol_name index.now.«module» name.now || is_some (get_by_text names.now name.now) }
{
    has_symbol(index, name) || names.contains_key(name)
}

/// Whether a name may be brought.
fn check_name(index: &Index, names: &IndexMap<String, ()>, name: &str) -> Result<(), PatchReason>
    requires { Knows index.now }
    ensures { Tells result (if is_symbol_name index.now.«module» name.now || is_some (get_by_text names.now name.now) then Some NameTaken else None) }
{
    if is_taken(index, names, name) {
        return Err(PatchReason::NameTaken);
    }
    Ok(())
}

/// Whether one more instruction may stand behind so many.
fn check_count(words: u64) -> Result<(), PatchReason>
    ensures { Tells result (if nat_le most_words words then Some TooMany else None) }
{
    if words >= MOST {
        return Err(PatchReason::TooMany);
    }
    Ok(())
}

/// Whether words can be inserted there.
fn check_spot(index: &Index, spot: &Spot, offset: u64) -> Result<(), PatchReason>
    requires { Knows index.now }
    ensures { Tells result (reason_of (insert_block index.now.«module» spot.now offset)) }
{
    match insert_block(index, spot, offset) {
        Ok(_) => Ok(()),
        Err(reason) => Err(reason),
    }
}

/// Whether a line of a form that may stand there says what it may say.
fn check_meaning(
    index: &Index,
    names: &IndexMap<String, ()>,
    words: u64,
    line: &PatchLine,
) -> Result<(), PatchReason>
    requires { Knows index.now }
    ensures { Tells result (meaning_fault index.now.«module» (λ q. is_symbol_name index.now.«module» q || is_some (get_by_text names.now q)) words line.now) }
{
    match line {
        PatchLine::Insert(spot, offset) => check_spot(index, spot, *offset),
        PatchLine::Function(name) => check_name(index, names, name.as_str()),
        PatchLine::Label(name) => check_name(index, names, name.as_str()),
        PatchLine::Word(_, _) => check_count(words),
        _ => Ok(()),
    }
}

/// Whether a line has no fault of the first pass.
fn check_line(
    index: &Index,
    place: Place,
    names: &IndexMap<String, ()>,
    words: u64,
    line: &PatchLine,
) -> Result<(), PatchReason>
    requires { Knows index.now }
    ensures { Tells result (line_fault index.now.«module» place (λ q. is_symbol_name index.now.«module» q || is_some (get_by_text names.now q)) words line.now) }
{
    match text_reason(place, line) {
        Some(reason) => Err(PatchReason::Text(reason)),
        None => check_meaning(index, names, words, line),
    }
}

fn is_word(line: &PatchLine) -> bool
    ensures { result ≡ is_word line.now }
{
    matches!(line, PatchLine::Word(_, _))
}

/// The number of instructions, with this line.
fn words_with(words: u64, line: &PatchLine) -> u64
    requires { words < 2 ^ 63 }
    ensures { result ≡ words + (if is_word line.now then 1 else 0) }
{
    if is_word(line) { words + 1 } else { words }
}

/// The names that the text brings, if no line has a fault of the first pass.
pub(crate) fn check_lines(
    alloc: Global,
    index: &Index,
    lines: &[PatchLine],
) -> Result<IndexMap<String, ()>, End<PatchFault>>
    requires { Knows index.now }
    ensures fault { TellsEnd result (first_pass index.now.«module» [] lines.now) }
    ensures names { IfOk result (λ names. (q : List ℕ) → is_some (get_by_text names q) ≡ is_name_in lines.now q) }
{
    let mut names = IndexMap::new(alloc);
    let mut place = Place::Outside;
    let mut words: u64 = 0;
    let mut number: u64 = 0;
    for line in lines {
        number += 1;
        if let Err(reason) = check_line(index, place, &names, words, line) {
            return Err(End::Fault(PatchFault {
                line: number,
                reason,
            }));
        }
        place = after(place, line);
        words = words_with(words, line);
        add_names(alloc, &mut names, line)?;
    }
    if !is_outside(place) {
        let reason = PatchReason::Text(TextReason::Syntax);
        return Err(End::Fault(PatchFault {
            line: number + 1,
            reason,
        }));
    }
    Ok(names)
}
