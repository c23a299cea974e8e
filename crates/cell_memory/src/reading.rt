//! What the cells of one object are.

ghost use Rattle.std.specs.Prelude.{◌≡◌, ◌≤◌, ◌<◌, ◌+◌, ◌==◌, length, map, take, drop, slice_index_or, if◌then◌else◌, Some, None, IfSome};
ghost use Rattle.std.specs.List.{list_all, list_any};
ghost use Rattle.std.specs.Option.{option_copied, option_map};
ghost use Rattle.cell_memory.specs.Shown.{kept_in, part_of, place_of, shown};
ghost use Rattle.cell_memory.specs.Wholes.{are_parts_of, is_part_of, number_of, part_in, whole_in};
ghost use Rattle.sym_expr.specs.States.{parts_from};
ghost use Rattle.sym_expr.specs.Symbolic.{bytes_in, is_blank, number_of_cells};
ghost use Rattle.sym_expr.specs.Values.{Blank};

use crate::cells::Cells;
use crate::same::same_whole;
use crate::whole::{Span, Whole};

/// Whether cells with these marks are bytes.
#[inline(always)]
fn are_bytes(marks: &[u8]) -> bool
    ensures { result ≡ list_all (λ mark. mark == 0) marks.now }
{
    marks.iter().all(|mark| *mark == 0)
}

/// The number of bytes, the low one first.
fn number_of(bytes: &[u8]) -> u64
    requires { length bytes.now ≤ 8 }
    ensures { result ≡ number_of bytes.now }
{
    let mut eight = [0; 8];
    eight[..bytes.len()].copy_from_slice(bytes);
    u64::from_le_bytes(eight)
}

/// The place in what is stored whole of the cell at an offset, with this byte and mark, and where that stands.
#[inline(always)]
fn place_of(at: u64, byte: u8, mark: u8) -> Option<(u8, Span)>
    ensures { result ≡ place_of at byte mark }
{
    if mark == 0 {
        return None;
    }
    let place = mark - 1;
    if place < byte && u64::from(place) <= at {
        let start = at - u64::from(place);
        Some((place, Span { start, count: byte }))
    } else {
        None
    }
}

impl Cells {
    /// The bytes of so many cells from an offset on, if that is what they are.
    #[inline(always)]
    pub fn bytes(&self, at: u64, count: u64) -> Option<&[u8]>
        requires { at + count ≤ length (shown self.now) }
        ensures bytes { option_copied result ≡ bytes_in (take count (drop at (shown self.now))) }
        ensures count { IfSome result (λ bytes. length bytes.now ≡ count) }
    {
        let start = at as usize;
        let end = start + count as usize;
        if are_bytes(&self.marks[start..end]) {
            Some(&self.bytes[start..end])
        } else {
            None
        }
    }

    /// The number of so many cells from an offset on, if they are bytes.
    #[inline(always)]
    pub fn number(&self, at: u64, count: u64) -> Option<u64>
        requires count { count ≤ 8 }
        requires inside { at + count ≤ length (shown self.now) }
        ensures { result ≡ number_of_cells (take count (drop at (shown self.now))) }
    {
        match self.bytes(at, count) {
            Some(bytes) => Some(number_of(bytes)),
            None => None,
        }
    }

    /// The place of a cell in what is stored whole, and what that is.
    fn part(&self, at: u64) -> Option<(u8, Whole)>
        requires { at < length (shown self.now) }
        ensures { result ≡ part_in (slice_index_or (shown self.now) at Blank) }
    {
        match place_of(at, self.bytes[at as usize], self.marks[at as usize]) {
            Some((place, span)) => self.kept_part(place, &span),
            None => None,
        }
    }

    /// A place in what is kept, and what that is.
    fn kept_part(&self, place: u8, span: &Span) -> Option<(u8, Whole)>
        ensures { result ≡ option_map (λ w. (place, w)) (kept_in self.now span.now) }
    {
        match self.wholes.get(span) {
            Some(whole) => Some((place, *whole)),
            None => None,
        }
    }

    /// Whether a cell is a part of something, in this place.
    fn is_part(&self, at: u64, place: u8, whole: &Whole) -> bool
        requires { at < length (shown self.now) }
        ensures { result ≡ is_part_of place whole.now (slice_index_or (shown self.now) at Blank) }
    {
        match self.part(at) {
            Some((its, other)) => its == place && same_whole(whole, &other),
            None => false,
        }
    }

    /// Whether so many cells from an offset on are the first parts of something.
    fn are_parts(&self, at: u64, count: u8, whole: &Whole) -> bool
        requires { at + count ≤ length (shown self.now) }
        ensures { result ≡ are_parts_of 0 whole.now (take count (drop at (shown self.now))) }
    {
        let mut place = 0;
        while place < count {
            if !self.is_part(at + u64::from(place), place, whole) {
                return false;
            }
            place += 1;
        }
        true
    }

    /// That of which so many cells from an offset on are the first parts.
    pub fn whole(&self, at: u64, count: u8) -> Option<Whole>
        requires some { 0 < count }
        requires most { count ≤ 8 }
        requires inside { at + count ≤ length (shown self.now) }
        ensures { result ≡ whole_in (take count (drop at (shown self.now))) }
    {
        match self.run(at, count) {
            Some(whole) => Some(whole),
            None => self.whole_by_cells(at, count),
        }
    }

    /// The same, cell by cell.
    fn whole_by_cells(&self, at: u64, count: u8) -> Option<Whole>
        requires some { 0 < count }
        requires inside { at + count ≤ length (shown self.now) }
        ensures { result ≡ whole_in (take count (drop at (shown self.now))) }
    {
        match self.part(at) {
            Some((_, whole)) => self.whole_of(at, count, whole),
            None => None,
        }
    }

    /// The same where the first cell is a part of something.
    fn whole_of(&self, at: u64, count: u8, whole: Whole) -> Option<Whole>
        requires { at + count ≤ length (shown self.now) }
        ensures { result ≡ (if are_parts_of 0 whole (take count (drop at (shown self.now))) then Some whole else None) }
    {
        if self.are_parts(at, count, &whole) {
            Some(whole)
        } else {
            None
        }
    }

    /// Whether one of so many cells from an offset on is unknown.
    pub fn has_blank(&self, at: u64, count: u64) -> bool
        requires { at + count ≤ length (shown self.now) }
        ensures { result ≡ list_any is_blank (take count (drop at (shown self.now))) }
    {
        match self.first_run(at, count) {
            Some(_) => false,
            None => self.has_blank_by_cells(at, count),
        }
    }

    /// What was stored whole at an offset, where there are not too many cells and it is still there.
    fn first_run(&self, at: u64, count: u64) -> Option<Whole>
        requires { at + count ≤ length (shown self.now) }
        ensures { IfSome result (λ whole. take count (drop at (shown self.now)) ≡ parts_from count 0 (part_of whole)) }
    {
        if count == 0 || count > 8 {
            return None;
        }
        self.run(at, count as u8)
    }

    /// The same as `has_blank`, cell by cell.
    fn has_blank_by_cells(&self, at: u64, count: u64) -> bool
        requires { at + count ≤ length (shown self.now) }
        ensures { result ≡ list_any is_blank (take count (drop at (shown self.now))) }
    {
        let mut done = 0;
        while done < count {
            if self.is_blank(at + done) {
                return true;
            }
            done += 1;
        }
        false
    }

    fn is_blank(&self, at: u64) -> bool
        requires { at < length (shown self.now) }
        ensures { result ≡ is_blank (slice_index_or (shown self.now) at Blank) }
    {
        match self.part(at) {
            Some(_) => false,
            None => self.marks[at as usize] != 0,
        }
    }
}
