//! Where in a patch text a line stands, and which lines may stand there.

ghost use Rattle.std.specs.Prelude.{◌≡◌};
ghost use Rattle.patch_lines.specs.Places.{after, filled, has_place, is_outside, is_unfit, text_reason};

use crate::line::PatchLine;
use asm_read::TextReason;

/// Where a line stands: outside, or in an insert or a function, which has no instruction yet or has one.
#[derive(Clone, Copy, Debug, PartialEq, Eq)]
pub(crate) enum Place {
    Outside,
    EmptyInsert,
    Insert,
    EmptyFunction,
    Function,
}

pub(crate) fn is_outside(place: Place) -> bool
    ensures { result ≡ is_outside place }
{
    matches!(place, Place::Outside)
}

/// Whether the line may stand there.
pub(crate) fn has_place(place: Place, line: &PatchLine) -> bool
    ensures { result ≡ has_place place line.now }
{
    match line {
        PatchLine::Blank => true,
        PatchLine::Insert(_, _) | PatchLine::Function(_) | PatchLine::UnfitInsert => {
            place == Place::Outside
        }
        PatchLine::Label(_) => place == Place::EmptyFunction || place == Place::Function,
        PatchLine::Word(_, _) | PatchLine::UnfitWord => place != Place::Outside,
        PatchLine::End => place == Place::Insert || place == Place::Function,
        PatchLine::Other => false,
    }
}

/// Where the line behind it stands.
pub(crate) fn after(place: Place, line: &PatchLine) -> Place
    ensures { result ≡ after place line.now }
{
    match line {
        PatchLine::Insert(_, _) => Place::EmptyInsert,
        PatchLine::Function(_) => Place::EmptyFunction,
        PatchLine::End => Place::Outside,
        PatchLine::Word(_, _) => filled(place),
        _ => place,
    }
}

/// The same place behind an instruction.
fn filled(place: Place) -> Place
    ensures { result ≡ filled place }
{
    match place {
        Place::EmptyInsert => Place::Insert,
        Place::EmptyFunction => Place::Function,
        _ => place,
    }
}

/// Whether its numbers keep it from saying something.
fn is_unfit(line: &PatchLine) -> bool
    ensures { result ≡ is_unfit line.now }
{
    matches!(line, PatchLine::UnfitInsert | PatchLine::UnfitWord)
}

/// What is wrong with a line there, looking at its form alone.
pub(crate) fn text_reason(place: Place, line: &PatchLine) -> Option<TextReason>
    ensures { result ≡ text_reason place line.now }
{
    if !has_place(place, line) {
        Some(TextReason::Syntax)
    } else if is_unfit(line) {
        Some(TextReason::Number)
    } else {
        None
    }
}
