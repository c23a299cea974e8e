//! Lines of assembly text that have no fault, as intervals and labels.

ghost use Rattle.std.specs.Prelude.{◌≡◌, ◌∷◌, ◌++◌, [], IfOk, OnOk};
ghost use Rattle.asm_build.specs.Kept.{with_item, with_line};
ghost use Rattle.asm_modules.specs.Modules.{intervals_in, label_of, labels_at, labels_behind};
ghost use Rattle.asm_lines.specs.declared.line.AsmLine.TheVariants as lines;
ghost use Rattle.asm_modules.specs.declared.place.Place.TheVariants.{Ahead};

use crate::seen::{ordinal_of, place_behind};
use asm_lines::{AsmItem, AsmLine, AsmName};
use asm_modules::{AsmAt, AsmInterval, AsmLabel, Place};
use gr_base::{Seq, Text};
use std::alloc::{AllocError, Global};

fn push_label(
    alloc: Global,
    labels: &mut Seq<AsmLabel>,
    name: &AsmName,
    at: AsmAt,
) -> Result<(), AllocError>
    ensures { OnOk result (labels.new ≡ labels.old ++ label_of name.now at ∷ []) }
{
    let ordinal = ordinal_of(name);
    let name = Text::from_str(alloc, name.name.as_str())?;
    labels.push(AsmLabel { name, ordinal, at })
}

/// Adds a label of this place, if it is in an interval.
fn add_inside(
    alloc: Global,
    labels: &mut Seq<AsmLabel>,
    place: &Place,
    name: &AsmName,
) -> Result<(), AllocError>
    ensures { OnOk result (labels.new ≡ labels.old ++ labels_at place.now (lines.Label name.now)) }
{
    match place {
        Place::Inside(uuid, _, offset) => {
            push_label(alloc, labels, name, AsmAt::Inside(*uuid, *offset))
        }
        Place::Ahead | Place::Section => Ok(()),
    }
}

/// Adds the label that a line brings at a place, if it brings one.
fn add_label(
    alloc: Global,
    labels: &mut Seq<AsmLabel>,
    place: &Place,
    line: &AsmLine,
) -> Result<(), AllocError>
    ensures { OnOk result (labels.new ≡ labels.old ++ labels_at place.now line.now) }
{
    match line {
        AsmLine::Set(name, value) => push_label(alloc, labels, name, AsmAt::Absolute(*value)),
        AsmLine::Label(name) => add_inside(alloc, labels, place, name),
        AsmLine::Blank
        | AsmLine::Section(_)
        | AsmLine::Interval(_, _, _)
        | AsmLine::Entry
        | AsmLine::Item(_) => Ok(()),
    }
}

/// The labels of lines, in order.
pub(crate) fn labels_in(alloc: Global, lines: &[AsmLine]) -> Result<Seq<AsmLabel>, AllocError>
    ensures { IfOk result (λ labels. labels ≡ labels_behind Ahead lines.now) }
{
    let mut labels = Seq::new(alloc);
    let mut place = Place::Ahead;
    for line in lines {
        add_label(alloc, &mut labels, &place, line)?;
        place = place_behind(&place, line)?;
    }
    Ok(labels)
}

/// Adds an item to the last interval, if there is one.
fn push_item(intervals: &mut Vec<AsmInterval>, item: AsmItem) -> Result<(), AllocError>
    ensures { OnOk result (intervals.new.items ≡ with_item intervals.old.items item) }
{
    match intervals.last_mut() {
        Some(interval) => interval.items.push(item),
        None => Ok(()),
    }
}

/// Adds the interval that a line begins, or the item that it is.
fn add_line(
    alloc: Global,
    intervals: &mut Vec<AsmInterval>,
    line: AsmLine,
) -> Result<(), AllocError>
    ensures { OnOk result (intervals.new.items ≡ with_line intervals.old.items line) }
{
    match line {
        AsmLine::Interval(uuid, align, residue) => {
            intervals.push(AsmInterval {
                uuid,
                align,
                residue,
                items: Seq::new(alloc),
            })?;
            Ok(())
        }
        AsmLine::Item(item) => push_item(intervals, item),
        AsmLine::Blank
        | AsmLine::Set(_, _)
        | AsmLine::Section(_)
        | AsmLine::Label(_)
        | AsmLine::Entry => Ok(()),
    }
}

/// The intervals of lines, in order.
pub(crate) fn intervals_in(
    alloc: Global,
    lines: Seq<AsmLine>,
) -> Result<Seq<AsmInterval>, AllocError>
    ensures { IfOk result (λ intervals. intervals ≡ intervals_in lines) }
{
    let mut intervals = Vec::new(alloc);
    for line in lines.into_vec() {
        add_line(alloc, &mut intervals, line)?;
    }
    Ok(Seq::from_vec(intervals))
}
