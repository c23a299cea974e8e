//! The words of what is wrong with a module, a patch text, a layout or a link.

ghost use Rattle.std.specs.Prelude.{Some};
ghost use Rattle.note_texts.specs.FaultTexts.{aux_text, check_text, layout_text, link_text, patch_reason_text, patch_text, reason_text, rewrite_text, spot_text};

use asm_read::TextReason;
use gr_base::AuxFault;
use layout_plan::LayoutFault;
use node_arena::CheckFault;
use patch_lines::{PatchFault, PatchReason};
use std::fmt;
use sym_expr::{LinkFault, Spot};
use taken_ids::RewriteFault;

/// The fault of a table's bytes in a note: its number and its place.
#[derive(Clone, Copy)]
struct AuxNote(AuxFault);

impl fmt::Display for AuxNote {
    ghost output = { λ note. Some (aux_text note.0) };

    fn fmt<W: fmt::Write>(&self, f: &mut fmt::Formatter<W>) -> fmt::Result {
        match self.0 {
            AuxFault::Short(place) => write!(f, "1 {place}"),
            AuxFault::Rest(place) => write!(f, "2 {place}"),
            AuxFault::BadBool(place) => write!(f, "3 {place}"),
            AuxFault::BadVariant(place) => write!(f, "4 {place}"),
            AuxFault::BadUtf8(place) => write!(f, "5 {place}"),
            AuxFault::Duplicate(place) => write!(f, "6 {place}"),
        }
    }
}

/// What is wrong with a module, in a note.
#[derive(Clone, Copy)]
pub struct CheckNote<'a>(pub &'a CheckFault);

impl fmt::Display for CheckNote<'_> {
    ghost output = { λ note. Some (check_text note.0.now) };

    fn fmt<W: fmt::Write>(&self, f: &mut fmt::Formatter<W>) -> fmt::Result {
        match self.0 {
            CheckFault::DupUuid(id) => write!(f, "1 {id}"),
            CheckFault::BareBlock(interval) => write!(f, "2 {interval}"),
            CheckFault::Dangling(from, to) => write!(f, "3 {from} {to}"),
            CheckFault::WrongKind(from, to) => write!(f, "4 {from} {to}"),
            CheckFault::NoModule(count) => write!(f, "5 {count}"),
            CheckFault::NotA64(isa, order) => write!(f, "6 {isa} {order}"),
            CheckFault::ThreadLocal(section) => write!(f, "7 {section}"),
            CheckFault::Large(sum) => write!(f, "8 {sum}"),
            CheckFault::ContentsLong(interval) => write!(f, "9 {interval}"),
            CheckFault::BlockOutside(block) => write!(f, "10 {block}"),
            CheckFault::Overlap(a, b) => write!(f, "11 {a} {b}"),
            CheckFault::CodeAlign(block) => write!(f, "12 {block}"),
            CheckFault::NoEntry => write!(f, "13"),
            CheckFault::Aux(table, fault) => write!(f, "14 {} {}", table.as_str(), AuxNote(*fault)),
            CheckFault::BadPlace(table, id, offset) => {
                write!(f, "15 {} {id} {offset}", table.as_str())
            }
            CheckFault::Flag(interval, offset, flag) => write!(f, "16 {interval} {offset} {flag}"),
            CheckFault::BadOperand(interval, offset) => write!(f, "17 {interval} {offset}"),
            CheckFault::BadTarget(interval, offset) => write!(f, "18 {interval} {offset}"),
        }
    }
}

/// Why a line can't be read, in a note: its number.
#[derive(Clone, Copy)]
struct ReasonNote(TextReason);

impl fmt::Display for ReasonNote {
    ghost output = { λ note. Some (reason_text note.0) };

    fn fmt<W: fmt::Write>(&self, f: &mut fmt::Formatter<W>) -> fmt::Result {
        match self.0 {
            TextReason::Syntax => write!(f, "1"),
            TextReason::Number => write!(f, "2"),
            TextReason::LabelTwice => write!(f, "3"),
            TextReason::LabelUnknown => write!(f, "4"),
            TextReason::Directive => write!(f, "5"),
        }
    }
}

/// What is wrong with a line of patch text, in a note.
#[derive(Clone, Copy)]
struct PatchReasonNote(PatchReason);

impl fmt::Display for PatchReasonNote {
    ghost output = { λ note. Some (patch_reason_text note.0) };

    fn fmt<W: fmt::Write>(&self, f: &mut fmt::Formatter<W>) -> fmt::Result {
        match self.0 {
            PatchReason::Text(reason) => write!(f, "1 {}", ReasonNote(reason)),
            PatchReason::UnknownBlock => write!(f, "2"),
            PatchReason::BadOffset => write!(f, "3"),
            PatchReason::NameTaken => write!(f, "4"),
            PatchReason::TooMany => write!(f, "5"),
            PatchReason::UnknownName => write!(f, "6"),
            PatchReason::Ambiguous => write!(f, "7"),
            PatchReason::BadTarget => write!(f, "8"),
        }
    }
}

/// What is wrong with a patch text, and in which line, in a note.
#[derive(Clone, Copy)]
pub struct PatchNote(pub PatchFault);

impl fmt::Display for PatchNote {
    ghost output = { λ note. Some (patch_text note.0) };

    fn fmt<W: fmt::Write>(&self, f: &mut fmt::Formatter<W>) -> fmt::Result {
        let PatchFault { line, reason } = self.0;
        write!(f, "line {line} reason {}", PatchReasonNote(reason))
    }
}

/// Why patches can't be brought into a module, in a note.
#[derive(Clone, Copy)]
pub struct RewriteNote(pub RewriteFault);

impl fmt::Display for RewriteNote {
    ghost output = { λ note. Some (rewrite_text note.0) };

    fn fmt<W: fmt::Write>(&self, f: &mut fmt::Formatter<W>) -> fmt::Result {
        match self.0 {
            RewriteFault::IdTaken(id) => write!(f, "1 {id}"),
        }
    }
}

/// A spot of a layout, in a note.
#[derive(Clone, Copy)]
struct SpotNote(Spot);

impl fmt::Display for SpotNote {
    ghost output = { λ note. Some (spot_text note.0) };

    fn fmt<W: fmt::Write>(&self, f: &mut fmt::Formatter<W>) -> fmt::Result {
        match self.0 {
            Spot::Stack => write!(f, "stack"),
            Spot::Interval(id) => write!(f, "{id}"),
        }
    }
}

/// What is wrong with a layout, in a note.
#[derive(Clone, Copy)]
pub struct LayoutNote(pub LayoutFault);

impl fmt::Display for LayoutNote {
    ghost output = { λ note. Some (layout_text note.0) };

    fn fmt<W: fmt::Write>(&self, f: &mut fmt::Formatter<W>) -> fmt::Result {
        match self.0 {
            LayoutFault::Line(line) => write!(f, "1 {line}"),
            LayoutFault::Unknown(interval) => write!(f, "2 {interval}"),
            LayoutFault::Twice(interval) => write!(f, "3 {interval}"),
            LayoutFault::Missing(interval) => write!(f, "4 {interval}"),
            LayoutFault::Outside(spot) => write!(f, "5 {}", SpotNote(spot)),
            LayoutFault::Unaligned(spot) => write!(f, "6 {}", SpotNote(spot)),
            LayoutFault::Overlap(a, b) => write!(f, "7 {} {}", SpotNote(a), SpotNote(b)),
        }
    }
}

/// Why a program can't be linked, in a note.
#[derive(Clone, Copy)]
pub struct LinkNote(pub LinkFault);

impl fmt::Display for LinkNote {
    ghost output = { λ note. Some (link_text note.0) };

    fn fmt<W: fmt::Write>(&self, f: &mut fmt::Formatter<W>) -> fmt::Result {
        match self.0 {
            LinkFault::TooBig(sum) => write!(f, "1 {sum}"),
            LinkFault::Undefined(symbol) => write!(f, "2 {symbol}"),
            LinkFault::Range(interval, offset, value) => {
                write!(f, "3 {interval} {offset} {value}")
            }
            LinkFault::Unaligned(interval, offset, value) => {
                write!(f, "4 {interval} {offset} {value}")
            }
        }
    }
}
