//! The cells of a machine. What they are is told by `kept_cells` alone, and what can be put there for certain by
//! `kept_room`, so that proofs about machines don't look into how a memory keeps them.

ghost use Rattle.std.specs.Prelude.{◌≡◌, ◌≤◌, ◌<◌, ◌+◌, ◌^◌, Bool, drop, length, map, take, ℕ, IfOk, IsOk, OnOk, OnErr};
ghost use Rattle.std.specs.List.{list_any};
ghost use Rattle.std.specs.Option.{option_copied, option_map};
ghost use Rattle.cell_memory.specs.Memory.{placed_in};
ghost use Rattle.a64_inst.specs.declared.operations.Width.{Width};
ghost use Rattle.sym_expr.specs.declared.program.Program.{Program as ProgramOf};
ghost use Rattle.sym_expr.specs.declared.value.Object.{Object as ObjectOf};
ghost use Rattle.sym_expr.specs.States.{number_cells, object_cells, value_cells};
ghost use Rattle.sym_expr.specs.Symbolic.{bytes_in, entry_step, is_blank, number_of_cells, whole_difference, whole_entry, whole_value};
ghost use Rattle.sym_expr.specs.Values.{Byte};
ghost use Rattle.sym_expr.specs.WellMade.{well_made};
ghost use Rattle.sym_values.specs.Kept.{kept_cells, kept_room};

use cell_memory::{CellMemory, Entry};
use std::alloc::{AllocError, Global};
use sym_expr::{Object, Program, Value};

/// The cells of each object.
#[derive(Drop)]
pub struct KeptCells {
    pub memory: CellMemory,
}

impl KeptCells {
    /// The cells before the first instruction, with a stack of so many zeros.
    #[tactic(auto, unfolding(crate::specs::Kept::kept_cells))]
    pub fn open(alloc: Global, program: &Program, stack: u64) -> Result<KeptCells, AllocError>
        requires well { well_made program.now }
        requires stack { stack ≤ 2 ^ 24 }
        ensures { IfOk result (λ kept. kept_cells kept ≡ object_cells program.now stack) }
    {
        Ok(KeptCells {
            memory: CellMemory::open(alloc, program, stack)?,
        })
    }

    /// How many cells an object has.
    #[inline(always)]
    #[tactic(auto, unfolding(crate::specs::Kept::kept_cells))]
    pub fn size(&self, object: Object) -> u64
        ensures { result ≡ length (kept_cells self.now object) }
    {
        self.memory.size(object)
    }

    /// Whether one of so many cells is unknown.
    #[inline(always)]
    #[tactic(auto, unfolding(crate::specs::Kept::kept_cells))]
    pub fn has_blank(&self, object: Object, at: u64, count: u64) -> bool
        requires { at + count ≤ length (kept_cells self.now object) }
        ensures { result ≡ list_any is_blank (take count (drop at (kept_cells self.now object))) }
    {
        self.memory.has_blank(object, at, count)
    }

    /// The bytes of so many cells, where all are bytes.
    #[inline(always)]
    #[tactic(auto, unfolding(crate::specs::Kept::kept_cells))]
    pub fn bytes(&self, object: Object, at: u64, count: u64) -> Option<&[u8]>
        requires { at + count ≤ length (kept_cells self.now object) }
        ensures { option_copied result ≡ bytes_in (take count (drop at (kept_cells self.now object))) }
    {
        self.memory.bytes(object, at, count)
    }

    /// The number of so many cells, where all are bytes.
    #[inline(always)]
    #[tactic(auto, unfolding(crate::specs::Kept::kept_cells))]
    pub fn number(&self, object: Object, at: u64, count: u64) -> Option<u64>
        requires count { count ≤ 8 }
        requires inside { at + count ≤ length (kept_cells self.now object) }
        ensures { result ≡ number_of_cells (take count (drop at (kept_cells self.now object))) }
    {
        self.memory.number(object, at, count)
    }

    /// The value whose parts eight cells are.
    #[inline(always)]
    #[tactic(auto, unfolding(crate::specs::Kept::kept_cells))]
    pub fn whole_value(&self, object: Object, at: u64) -> Option<Value>
        requires { at + 8 ≤ length (kept_cells self.now object) }
        ensures { result ≡ whole_value (take 8 (drop at (kept_cells self.now object))) }
    {
        self.memory.whole_value(object, at)
    }

    /// The difference whose quarters four cells are.
    #[inline(always)]
    #[tactic(auto, unfolding(crate::specs::Kept::kept_cells))]
    pub fn whole_difference(&self, object: Object, at: u64) -> Option<Value>
        requires { at + 4 ≤ length (kept_cells self.now object) }
        ensures { result ≡ whole_difference (take 4 (drop at (kept_cells self.now object))) }
    {
        self.memory.whole_difference(object, at)
    }

    /// The entry whose parts so many cells are.
    #[inline(always)]
    #[tactic(auto, unfolding(crate::specs::Kept::kept_cells))]
    pub fn entry(&self, object: Object, at: u64, count: u64) -> Option<Entry>
        requires some { 0 < count }
        requires count { count ≤ 8 }
        requires inside { at + count ≤ length (kept_cells self.now object) }
        ensures { (g : ProgramOf) (signed : Bool) (width : Width) → whole_entry g count signed width (take count (drop at (kept_cells self.now object))) ≡ option_map (λ e. entry_step g count signed width e.scale e.first e.second) result }
    {
        self.memory.entry(object, at, count)
    }

    /// Makes room for so many values more in an object, which then can be put there for certain.
    #[tactic(auto, unfolding(crate::specs::Kept::kept_cells, crate::specs::Kept::kept_room))]
    pub fn reserve(&mut self, object: Object, count: usize) -> Result<(), AllocError>
        ensures cells { kept_cells self.new ≡ kept_cells self.old }
        ensures ok { OnOk result (kept_room self.new count object) }
        ensures room { (other : ObjectOf) (more : ℕ) → kept_room self.old more other → kept_room self.new more other }
    {
        self.memory.reserve(object, count)
    }

    /// Puts bytes from an offset on.
    #[inline(always)]
    #[tactic(auto, unfolding(crate::specs::Kept::kept_cells, crate::specs::Kept::kept_room))]
    pub fn put_bytes(&mut self, object: Object, at: u64, bytes: &[u8])
        requires { at + length bytes.now ≤ length (kept_cells self.old object) }
        ensures cells { kept_cells self.new ≡ placed_in (kept_cells self.old) object at (map Byte bytes.now) }
        ensures room { (other : ObjectOf) (more : ℕ) → kept_room self.old more other → kept_room self.new more other }
    {
        self.memory.put_bytes(object, at, bytes);
    }

    /// Puts the low bytes of a number from an offset on.
    #[inline(always)]
    #[tactic(auto, unfolding(crate::specs::Kept::kept_cells, crate::specs::Kept::kept_room))]
    pub fn put_number(&mut self, object: Object, at: u64, count: u64, n: u64)
        requires count { count ≤ 8 }
        requires inside { at + count ≤ length (kept_cells self.old object) }
        ensures cells { kept_cells self.new ≡ placed_in (kept_cells self.old) object at (number_cells count n) }
        ensures room { (other : ObjectOf) (more : ℕ) → kept_room self.old more other → kept_room self.new more other }
    {
        self.memory.put_number(object, at, count, n);
    }

    /// Puts a value over eight cells.
    #[inline(always)]
    #[tactic(auto, unfolding(crate::specs::Kept::kept_cells, crate::specs::Kept::kept_room))]
    pub fn put_value(&mut self, object: Object, at: u64, value: Value) -> Result<(), AllocError>
        requires { at + 8 ≤ length (kept_cells self.old object) }
        ensures ok { OnOk result (kept_cells self.new ≡ placed_in (kept_cells self.old) object at (value_cells value)) }
        ensures err { OnErr result (kept_cells self.new ≡ kept_cells self.old) }
        ensures succeeds { kept_room self.old 1 object → IsOk result }
        ensures room { (other : ObjectOf) (more : ℕ) → kept_room self.old (more + 1) other → kept_room self.new more other }
    {
        self.memory.put_value(object, at, value)
    }
}
