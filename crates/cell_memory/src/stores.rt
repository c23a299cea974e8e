//! What is put into the cells of an object.

ghost use Rattle.std.specs.Prelude.{◌≡◌, ◌≤◌, ◌+◌, ℕ, length, map, IsOk, OnOk, OnErr};
ghost use Rattle.cell_memory.specs.Memory.{cells_of, placed_in, HasRoom};
ghost use Rattle.cell_memory.specs.Shown.{part_of};
ghost use Rattle.sym_expr.specs.declared.value.Object.{Object as ObjectOf};
ghost use Rattle.sym_expr.specs.States.{number_cells, parts_from, value_cells};
ghost use Rattle.sym_expr.specs.Values.{Byte};

use crate::memory::CellMemory;
use crate::whole::Whole;
use std::alloc::AllocError;
use sym_expr::{Object, Value};

impl CellMemory {
    /// Makes room for so many values more in an object, which then can be put there for certain.
    pub fn reserve(&mut self, object: Object, count: usize) -> Result<(), AllocError>
        ensures cells { cells_of self.new ≡ cells_of self.old }
        ensures ok { OnOk result (HasRoom self.new count object) }
        ensures room { (other : ObjectOf) (more : ℕ) → HasRoom self.old more other → HasRoom self.new more other }
    {
        match object {
            Object::Stack => self.stack.reserve(count),
            Object::Block(id) => match self.blocks.get_mut(&id) {
                Some(cells) => cells.reserve(count),
                None => Ok(()),
            },
        }
    }

    /// Puts bytes from an offset on.
    #[inline(always)]
    pub fn put_bytes(&mut self, object: Object, at: u64, bytes: &[u8])
        requires { at + length bytes.now ≤ length (cells_of self.old object) }
        ensures cells { cells_of self.new ≡ placed_in (cells_of self.old) object at (map Byte bytes.now) }
        ensures room { (other : ObjectOf) (more : ℕ) → HasRoom self.old more other → HasRoom self.new more other }
    {
        match object {
            Object::Stack => self.stack.put_bytes(at, bytes),
            Object::Block(id) => match self.blocks.get_mut(&id) {
                Some(cells) => cells.put_bytes(at, bytes),
                None => {}
            },
        }
    }

    /// Puts the low bytes of a number from an offset on.
    #[inline(always)]
    pub fn put_number(&mut self, object: Object, at: u64, count: u64, n: u64)
        requires count { count ≤ 8 }
        requires inside { at + count ≤ length (cells_of self.old object) }
        ensures cells { cells_of self.new ≡ placed_in (cells_of self.old) object at (number_cells count n) }
        ensures room { (other : ObjectOf) (more : ℕ) → HasRoom self.old more other → HasRoom self.new more other }
    {
        self.put_bytes(object, at, &n.to_le_bytes()[..count as usize]);
    }

    /// Puts the parts of what is stored whole over eight cells.
    fn put_whole(&mut self, object: Object, at: u64, whole: Whole) -> Result<(), AllocError>
        requires { at + 8 ≤ length (cells_of self.old object) }
        ensures ok { OnOk result (cells_of self.new ≡ placed_in (cells_of self.old) object at (parts_from 8 0 (part_of whole))) }
        ensures err { OnErr result (cells_of self.new ≡ cells_of self.old) }
        ensures succeeds { HasRoom self.old 1 object → IsOk result }
        ensures room { (other : ObjectOf) (more : ℕ) → HasRoom self.old (more + 1) other → HasRoom self.new more other }
    {
        match object {
            Object::Stack => self.stack.put_whole(at, 8, whole),
            Object::Block(id) => match self.blocks.get_mut(&id) {
                Some(cells) => cells.put_whole(at, 8, whole),
                None => Ok(()),
            },
        }
    }

    /// Puts a value over eight cells.
    #[inline(always)]
    pub fn put_value(&mut self, object: Object, at: u64, value: Value) -> Result<(), AllocError>
        requires { at + 8 ≤ length (cells_of self.old object) }
        ensures ok { OnOk result (cells_of self.new ≡ placed_in (cells_of self.old) object at (value_cells value)) }
        ensures err { OnErr result (cells_of self.new ≡ cells_of self.old) }
        ensures succeeds { HasRoom self.old 1 object → IsOk result }
        ensures room { (other : ObjectOf) (more : ℕ) → HasRoom self.old (more + 1) other → HasRoom self.new more other }
    {
        match value {
            Value::Num(n) => {
                self.put_number(object, at, 8, n);
                Ok(())
            }
            _ => self.put_whole(object, at, Whole::Value(value)),
        }
    }
}
