//! Where in a text a line stands, and which lines may stand there.

ghost use Rattle.std.specs.Prelude.{◌≡◌, ◌≤◌, ◌^◌, IfSome, IfNone};
ghost use Rattle.asm_modules.specs.Places.{after, behind_item, bytes_ahead, can_enter, is_ahead, is_inside, item_size, may_stand};

use asm_lines::{AsmItem, AsmLine};
use uuid::Uuid;

/// Where a line stands.
#[derive(Clone, Copy, Debug, PartialEq, Eq)]
pub enum Place {
    /// Ahead of the first section.
    Ahead,
    /// In a section, ahead of its first interval.
    Section,
    /// In an interval of this alignment, so many bytes into it.
    Inside(Uuid, u64, u64),
}

/// How many bytes an item takes.
fn item_size(item: &AsmItem) -> u64
    ensures { result ≡ item_size item.now }
{
    match item {
        AsmItem::Bytes(bytes) => bytes.len() as u64,
        AsmItem::Zero(count) => *count,
        AsmItem::Quad(_) | AsmItem::QuadDiff(_, _, _) => 8,
        AsmItem::WordDiff(_, _, _) | AsmItem::Word(_, _) => 4,
        AsmItem::Entry(size, _, _, _) => u64::from(*size),
    }
}

/// The same place behind an item, if its offset is a number of 64 bits.
fn behind_item(place: Place, size: u64) -> Option<Place>
    ensures place { IfSome result (λ behind. behind ≡ behind_item place size) }
    ensures far { IfNone result (2 ^ 64 ≤ bytes_ahead (behind_item place size)) }
{
    match place {
        Place::Inside(uuid, align, offset) => {
            let offset = offset.checked_add(size)?;
            Some(Place::Inside(uuid, align, offset))
        }
        Place::Ahead | Place::Section => Some(place),
    }
}

/// Where the line behind it stands, if its offset is a number of 64 bits.
pub fn after(place: Place, line: &AsmLine) -> Option<Place>
    ensures place { IfSome result (λ behind. behind ≡ after place line.now) }
    ensures far { IfNone result (2 ^ 64 ≤ bytes_ahead (after place line.now)) }
{
    match line {
        AsmLine::Section(_) => Some(Place::Section),
        AsmLine::Interval(uuid, align, _) => Some(Place::Inside(*uuid, *align, 0)),
        AsmLine::Item(item) => behind_item(place, item_size(item)),
        AsmLine::Blank | AsmLine::Set(_, _) | AsmLine::Label(_) | AsmLine::Entry => Some(place),
    }
}

fn is_ahead(place: Place) -> bool
    ensures { result ≡ is_ahead place }
{
    matches!(place, Place::Ahead)
}

fn is_inside(place: Place) -> bool
    ensures { result ≡ is_inside place }
{
    matches!(place, Place::Inside(_, _, _))
}

fn can_enter(place: Place) -> bool
    ensures { result ≡ can_enter place }
{
    match place {
        Place::Inside(_, align, offset) => align >= 4 && offset % 4 == 0,
        Place::Ahead | Place::Section => false,
    }
}

/// Whether the line may stand there.
pub fn may_stand(place: Place, line: &AsmLine) -> bool
    ensures { result ≡ may_stand place line.now }
{
    match line {
        AsmLine::Blank | AsmLine::Section(_) => true,
        AsmLine::Set(_, _) => is_ahead(place),
        AsmLine::Interval(_, _, _) => !is_ahead(place),
        AsmLine::Label(_) | AsmLine::Item(_) => is_inside(place),
        AsmLine::Entry => can_enter(place),
    }
}
