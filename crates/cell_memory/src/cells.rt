//! The cells of one object.

ghost use Rattle.std.specs.Prelude.{◌≡◌, ◌≤◌, ◌<◌, ◌+◌, length, map, replicate, if◌then◌else◌, vec_len, Some, IfOk, IsOk, OnOk, OnErr};
ghost use Rattle.std.specs.Map.{lookup};
ghost use Rattle.indexmap.specs.IndexMap.{spare};
ghost use Rattle.cell_memory.specs.declared.whole.Span.{Span as SpanOf};
ghost use Rattle.cell_memory.specs.Memory.{room};
ghost use Rattle.cell_memory.specs.Shown.{part_of, same_span, shown, with_part};
ghost use Rattle.sym_expr.specs.States.{number_cells, parts_from, placed_cells};
ghost use Rattle.sym_expr.specs.Values.{Byte, Blank};

use crate::whole::{Span, Whole};
use indexmap::IndexMap;
use std::alloc::{AllocError, Global};

/// The marks of the parts of what is stored whole, one more than their places.
pub const MARKS: [u8; 8] = [1, 2, 3, 4, 5, 6, 7, 8];

/// The cells of an object, as a byte and a mark for each, and what is stored whole.
#[derive(Drop)]
pub struct Cells {
    /// The byte of a cell that is one, and else how many cells that has of which it is a part.
    pub bytes: Vec<u8>,
    /// 0 for a byte, and for a part one more than its place.
    pub marks: Vec<u8>,
    pub wholes: IndexMap<Span, Whole>,
}

/// Keeps what is stored whole.
fn keep<V: Copy + Drop>(
    wholes: &mut IndexMap<Span, V>,
    span: Span,
    whole: V,
) -> Result<(), AllocError>
    ensures ok { OnOk result ((at : SpanOf) → lookup (same_span at) wholes.new.entries ≡ (if same_span span at then Some whole else lookup (same_span at) wholes.old.entries)) }
    ensures err { OnErr result (wholes.new.entries ≡ wholes.old.entries) }
    ensures succeeds { 0 < spare wholes.old → IsOk result }
    ensures room { spare wholes.old ≤ spare wholes.new + 1 }
{
    wholes.insert(span, whole)?;
    Ok(())
}

/// Puts bytes from a place on.
#[inline(always)]
fn put_part(list: &mut Vec<u8>, place: u64, bytes: &[u8])
    requires { place + length bytes.now ≤ vec_len list.old }
    ensures { list.new.items ≡ with_part list.old.items place bytes.now }
{
    let place = place as usize;
    list[place..place + bytes.len()].copy_from_slice(bytes);
}

/// Puts one byte so many times from a place on.
#[inline(always)]
fn fill_part(list: &mut Vec<u8>, place: u64, count: usize, byte: u8)
    requires { place + count ≤ vec_len list.old }
    ensures { list.new.items ≡ with_part list.old.items place (replicate count byte) }
{
    let place = place as usize;
    list[place..place + count].fill(byte);
}

impl Cells {
    /// Cells that are these bytes.
    pub fn new(alloc: Global, bytes: Vec<u8>) -> Result<Cells, AllocError>
        ensures { IfOk result (λ cells. shown cells ≡ map Byte bytes.items) }
    {
        let marks = vec![in alloc; 0; bytes.len()]?;
        Ok(Cells {
            bytes,
            marks,
            wholes: IndexMap::new(alloc),
        })
    }

    /// How many cells there are.
    pub fn len(&self) -> u64
        ensures { result ≡ length (shown self.now) }
    {
        self.bytes.len().min(self.marks.len()) as u64
    }

    /// Makes room for so many wholes more.
    pub fn reserve(&mut self, count: usize) -> Result<(), AllocError>
        ensures cells { shown self.new ≡ shown self.old }
        ensures ok { OnOk result (count ≤ room self.new) }
        ensures room { room self.old ≤ room self.new }
    {
        self.wholes.reserve(count)
    }

    /// Puts bytes from an offset on.
    #[inline(always)]
    pub fn put_bytes(&mut self, at: u64, bytes: &[u8])
        requires { at + length bytes.now ≤ length (shown self.old) }
        ensures cells { shown self.new ≡ placed_cells at (map Byte bytes.now) (shown self.old) }
        ensures room { room self.new ≡ room self.old }
    {
        put_part(&mut self.bytes, at, bytes);
        fill_part(&mut self.marks, at, bytes.len(), 0);
    }

    /// Puts the low bytes of a number from an offset on.
    pub fn put_number(&mut self, at: u64, count: u64, n: u64)
        requires count { count ≤ 8 }
        requires inside { at + count ≤ length (shown self.old) }
        ensures { shown self.new ≡ placed_cells at (number_cells count n) (shown self.old) }
    {
        self.put_bytes(at, &n.to_le_bytes()[..count as usize]);
    }

    /// Makes so many cells unknown from an offset on.
    pub fn put_blank(&mut self, at: u64, count: u8)
        requires { at + count ≤ length (shown self.old) }
        ensures { shown self.new ≡ placed_cells at (replicate count Blank) (shown self.old) }
    {
        fill_part(&mut self.bytes, at, count as usize, 0);
        fill_part(&mut self.marks, at, count as usize, 1);
    }

    /// Puts the parts of what is stored whole from an offset on.
    pub fn put_whole(&mut self, at: u64, count: u8, whole: Whole) -> Result<(), AllocError>
        requires count { count ≤ 8 }
        requires inside { at + count ≤ length (shown self.old) }
        ensures ok { OnOk result (shown self.new ≡ placed_cells at (parts_from count 0 (part_of whole)) (shown self.old)) }
        ensures err { OnErr result (shown self.new ≡ shown self.old) }
        ensures succeeds { 0 < room self.old → IsOk result }
        ensures room { room self.old ≤ room self.new + 1 }
    {
        keep(&mut self.wholes, Span { start: at, count }, whole)?;
        fill_part(&mut self.bytes, at, count as usize, count);
        put_part(&mut self.marks, at, &MARKS[..count as usize]);
        Ok(())
    }
}
