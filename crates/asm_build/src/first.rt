//! The first pass over lines of assembly text: forms, places and labels.

ghost use Rattle.std.specs.Prelude.{◌≡◌, ◌||◌, ◌∷◌, ◌++◌, [], ℕ, List, None, IfOk, OnOk, is_some};
ghost use Rattle.std.specs.HashMap.{get};
ghost use Rattle.std.specs.List.{list_any};
ghost use Rattle.std.specs.Str.{bytes_eq};
ghost use Rattle.asm_lines.specs.declared.line.AsmLine.{AsmLine as Line};
ghost use Rattle.asm_lines.specs.declared.line.AsmName.{AsmName as Name};
ghost use Rattle.asm_build.specs.Answers.{Tells, TellsEnd};
ghost use Rattle.asm_build.specs.Kept.{Sees, end_at, given_fault, has_id, has_label};
ghost use Rattle.asm_modules.specs.Faults.{first_pass, is_id_in, is_label_in, is_second, line_fault, line_labels, next_fault, ordinal_of};
ghost use Rattle.asm_modules.specs.Modules.{entry_at};
ghost use Rattle.asm_modules.specs.Outcomes.{lines_in, said};

use crate::seen::{Labels, Seen, is_kept, keep, place_behind};
use asm_lines::AsmLine;
use asm_modules::{AsmAt, Place, may_stand};
use asm_read::{TextFault, TextReason};
use gr_base::End;
use indexmap::IndexMap;
use std::alloc::{AllocError, Global};
use uuid::Uuid;

/// Whether an interval or the entry stands there for the second time.
fn is_second(seen: &Seen, line: &AsmLine) -> bool
    ensures { result ≡ is_second (has_id seen.now.ids) (is_some seen.now.entry) line.now }
{
    match line {
        AsmLine::Interval(uuid, _, _) => seen.ids.contains_key(uuid),
        AsmLine::Entry => seen.entry.is_some(),
        _ => false,
    }
}

/// Whether the label that a line brings, if it brings one, stands before.
fn brings_kept(labels: &Labels, line: &AsmLine) -> bool
    ensures { result ≡ list_any (has_label labels.now) (line_labels line.now) }
{
    match line {
        AsmLine::Set(name, _) => is_kept(labels, name),
        AsmLine::Label(name) => is_kept(labels, name),
        _ => false,
    }
}

/// Whether a line has no fault of the first pass.
fn check_line(seen: &Seen, line: &AsmLine) -> Result<(), TextReason>
    ensures { Tells result (line_fault seen.now.place (has_id seen.now.ids) (is_some seen.now.entry) (has_label seen.now.labels) line.now) }
{
    if !may_stand(seen.place, line) || is_second(seen, line) {
        return Err(TextReason::Directive);
    }
    if brings_kept(&seen.labels, line) {
        return Err(TextReason::LabelTwice);
    }
    Ok(())
}

/// The entry, if a line at this place is it.
fn entry_at(place: &Place, line: &AsmLine) -> Option<AsmAt>
    ensures { result ≡ entry_at place.now line.now }
{
    if !matches!(line, AsmLine::Entry) {
        return None;
    }
    match place {
        Place::Inside(uuid, _, offset) => Some(AsmAt::Inside(*uuid, *offset)),
        Place::Ahead | Place::Section => None,
    }
}

/// Keeps the label that a line brings, if it brings one.
fn keep_label(alloc: Global, labels: &mut Labels, line: &AsmLine) -> Result<(), AllocError>
    ensures { OnOk result ((q : Name) → has_label labels.new q ≡ (has_label labels.old q || is_label_in (line.now ∷ []) q)) }
{
    match line {
        AsmLine::Set(name, _) => keep(alloc, labels, name),
        AsmLine::Label(name) => keep(alloc, labels, name),
        _ => Ok(()),
    }
}

/// Keeps the interval that a line begins, if it begins one.
fn keep_id(ids: &mut IndexMap<Uuid, ()>, line: &AsmLine) -> Result<(), AllocError>
    ensures { OnOk result ((q : List ℕ) → has_id ids.new q ≡ (has_id ids.old q || is_id_in (line.now ∷ []) q)) }
{
    match line {
        AsmLine::Interval(uuid, _, _) => {
            ids.insert(*uuid, ())?;
            Ok(())
        }
        _ => Ok(()),
    }
}

/// Keeps what a line brings that has no fault of the first pass.
fn see(alloc: Global, seen: Seen, line: &AsmLine) -> Result<Seen, AllocError>
    ensures { IfOk result (λ more. (before : List Line) → Sees seen before → next_fault before line.now ≡ None → Sees more (before ++ line.now ∷ [])) }
{
    let Seen {
        place,
        mut ids,
        mut labels,
        entry,
    } = seen;
    keep_id(&mut ids, line)?;
    keep_label(alloc, &mut labels, line)?;
    let entry = entry.or(entry_at(&place, line));
    let place = place_behind(&place, line)?;
    Ok(Seen {
        place,
        ids,
        labels,
        entry,
    })
}

/// What was seen with the next line too, or what is wrong with it.
fn check_next(
    alloc: Global,
    seen: Seen,
    given: &Result<AsmLine, TextReason>,
) -> Result<Seen, End<TextReason>>
    ensures fault { (before : List Line) → Sees seen before → TellsEnd result (given_fault before given.now) }
    ensures sees { IfOk result (λ more. (before : List Line) → Sees seen before → Sees more (before ++ said given.now)) }
{
    match given {
        Err(reason) => Err(End::Fault(*reason)),
        Ok(line) => {
            if let Err(reason) = check_line(&seen, line) {
                return Err(End::Fault(reason));
            }
            let seen = see(alloc, seen, line)?;
            Ok(seen)
        }
    }
}

/// An end of a line, as one of a text.
fn at_line(line: u64, end: End<TextReason>) -> End<TextFault>
    ensures { result ≡ end_at line end }
{
    match end {
        End::Fault(reason) => End::Fault(TextFault { line, reason }),
        End::Memory => End::Memory,
    }
}

/// What lines bring of which none has a fault of the first pass.
pub(crate) fn check_lines(
    alloc: Global,
    given: &[Result<AsmLine, TextReason>],
) -> Result<Seen, End<TextFault>>
    ensures fault { TellsEnd result (first_pass [] given.now) }
    ensures sees { IfOk result (λ seen. Sees seen (lines_in given.now)) }
{
    let mut seen = Seen::none(alloc);
    let mut number: u64 = 0;
    for line in given {
        number += 1;
        seen = match check_next(alloc, seen, line) {
            Ok(more) => more,
            Err(end) => return Err(at_line(number, end)),
        };
    }
    Ok(seen)
}
