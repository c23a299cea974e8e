//! The second pass over lines of assembly text: the labels that they name.

ghost use Rattle.std.specs.Prelude.{◌≡◌, []};
ghost use Rattle.std.specs.List.{list_all};
ghost use Rattle.asm_build.specs.Answers.{Tells};
ghost use Rattle.asm_modules.specs.Faults.{item_names, line_names, second_pass};
ghost use Rattle.asm_build.specs.Kept.{has_label};

use crate::seen::{Labels, is_kept};
use asm_lines::{AsmItem, AsmLine};
use asm_read::{TextFault, TextReason};

/// Whether the labels that an item names are there.
fn names_kept(labels: &Labels, item: &AsmItem) -> bool
    ensures { result ≡ list_all (has_label labels.now) (item_names item.now) }
{
    match item {
        AsmItem::Bytes(_) | AsmItem::Zero(_) | AsmItem::Word(_, None) => true,
        AsmItem::Quad(e) | AsmItem::Word(_, Some(e)) => is_kept(labels, &e.label),
        AsmItem::QuadDiff(first, second, _)
        | AsmItem::WordDiff(first, second, _)
        | AsmItem::Entry(_, _, first, second) => is_kept(labels, first) && is_kept(labels, second),
    }
}

fn line_kept(labels: &Labels, line: &AsmLine) -> bool
    ensures { result ≡ list_all (has_label labels.now) (line_names line.now) }
{
    match line {
        AsmLine::Item(item) => names_kept(labels, item),
        _ => true,
    }
}

/// Whether each label that a line names is there.
pub(crate) fn check_names(labels: &Labels, lines: &[AsmLine]) -> Result<(), TextFault>
    ensures { Tells result (second_pass (has_label labels.now) [] lines.now) }
{
    let mut number: u64 = 0;
    for line in lines {
        number += 1;
        if !line_kept(labels, line) {
            return Err(TextFault {
                line: number,
                reason: TextReason::LabelUnknown,
            });
        }
    }
    Ok(())
}
