//! What is read of the cells of an object.

ghost use Rattle.std.specs.Prelude.{◌≡◌, ◌≤◌, ◌<◌, ◌+◌, Bool, [], length, take, drop, MatchOption};
ghost use Rattle.std.specs.List.{list_any};
ghost use Rattle.std.specs.Option.{option_copied, option_map};
ghost use Rattle.a64_inst.specs.declared.operations.Width.{Width};
ghost use Rattle.cell_memory.specs.Memory.{cells_of};
ghost use Rattle.cell_memory.specs.Shown.{shown};
ghost use Rattle.cell_memory.specs.Wholes.{whole_in};
ghost use Rattle.sym_expr.specs.declared.program.Program.{Program};
ghost use Rattle.sym_expr.specs.Symbolic.{bytes_in, entry_step, is_blank, number_of_cells, whole_difference, whole_entry, whole_value};

use crate::cells::Cells;
use crate::memory::CellMemory;
use crate::whole::{Entry, Whole};
use sym_expr::{Object, Value};

impl CellMemory {
    /// The cells of an object; None where there are none.
    #[inline(always)]
    fn cells(&self, object: Object) -> Option<&Cells>
        ensures { MatchOption result (cells_of self.now object ≡ []) (λ cells. cells_of self.now object ≡ shown cells.now) }
    {
        match object {
            Object::Stack => Some(&self.stack),
            Object::Block(id) => self.blocks.get(&id),
        }
    }

    /// How many cells an object has.
    #[inline(always)]
    pub fn size(&self, object: Object) -> u64
        ensures { result ≡ length (cells_of self.now object) }
    {
        match self.cells(object) {
            Some(cells) => cells.len(),
            None => 0,
        }
    }

    /// Whether one of so many cells from an offset on is unknown.
    pub fn has_blank(&self, object: Object, at: u64, count: u64) -> bool
        requires { at + count ≤ length (cells_of self.now object) }
        ensures { result ≡ list_any is_blank (take count (drop at (cells_of self.now object))) }
    {
        match self.cells(object) {
            Some(cells) => cells.has_blank(at, count),
            None => false,
        }
    }

    /// The bytes of so many cells from an offset on, if that is what they are.
    pub fn bytes(&self, object: Object, at: u64, count: u64) -> Option<&[u8]>
        requires { at + count ≤ length (cells_of self.now object) }
        ensures { option_copied result ≡ bytes_in (take count (drop at (cells_of self.now object))) }
    {
        match self.cells(object) {
            Some(cells) => cells.bytes(at, count),
            None => Some(&[]),
        }
    }

    /// The number of so many cells from an offset on, if they are bytes.
    #[inline(always)]
    pub fn number(&self, object: Object, at: u64, count: u64) -> Option<u64>
        requires count { count ≤ 8 }
        requires inside { at + count ≤ length (cells_of self.now object) }
        ensures { result ≡ number_of_cells (take count (drop at (cells_of self.now object))) }
    {
        match self.cells(object) {
            Some(cells) => cells.number(at, count),
            None => Some(0),
        }
    }

    /// That of which so many cells from an offset on are the first parts.
    fn whole(&self, object: Object, at: u64, count: u8) -> Option<Whole>
        requires some { 0 < count }
        requires most { count ≤ 8 }
        requires inside { at + count ≤ length (cells_of self.now object) }
        ensures { result ≡ whole_in (take count (drop at (cells_of self.now object))) }
    {
        match self.cells(object) {
            Some(cells) => cells.whole(at, count),
            None => None,
        }
    }

    /// The value of which the eight cells from an offset on are the parts, if there is one.
    pub fn whole_value(&self, object: Object, at: u64) -> Option<Value>
        requires { at + 8 ≤ length (cells_of self.now object) }
        ensures { result ≡ whole_value (take 8 (drop at (cells_of self.now object))) }
    {
        match self.whole(object, at, 8) {
            Some(whole) => whole.value(),
            None => None,
        }
    }

    /// The difference of which the four cells from an offset on are the parts, if there is one.
    pub fn whole_difference(&self, object: Object, at: u64) -> Option<Value>
        requires { at + 4 ≤ length (cells_of self.now object) }
        ensures { result ≡ whole_difference (take 4 (drop at (cells_of self.now object))) }
    {
        match self.whole(object, at, 4) {
            Some(whole) => whole.difference(),
            None => None,
        }
    }

    /// The entry of so many bytes of which the cells from an offset on are the parts, if there is one: a load makes
    /// a step of its points.
    pub fn entry(&self, object: Object, at: u64, count: u64) -> Option<Entry>
        requires some { 0 < count }
        requires count { count ≤ 8 }
        requires inside { at + count ≤ length (cells_of self.now object) }
        ensures { (g : Program) (signed : Bool) (width : Width) → whole_entry g count signed width (take count (drop at (cells_of self.now object))) ≡ option_map (λ e. entry_step g count signed width e.scale e.first e.second) result }
    {
        match self.whole(object, at, count as u8) {
            Some(whole) => whole.entry(count),
            None => None,
        }
    }
}
