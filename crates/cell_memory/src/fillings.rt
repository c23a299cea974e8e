//! What stands in data for expressions.

ghost use Rattle.std.specs.Prelude.{◌≡◌, ◌≤◌, ◌+◌, length, OnOk};
ghost use Rattle.cell_memory.specs.Shown.{shown};
ghost use Rattle.sym_expr.specs.Images.{filling_size};
ghost use Rattle.sym_expr.specs.States.{difference_cells, difference_number, entry_cells, far_cells, filling_cells, is_defined, placed_cells, pointer_cells};

use crate::cells::Cells;
use crate::whole::{Entry, Whole};
use std::alloc::AllocError;
use sym_expr::{Filling, Object, Target, Value};

fn is_defined(target: &Target) -> bool
    ensures { result ≡ is_defined target.now }
{
    !matches!(target, Target::Undefined(_))
}

/// The number that a difference is, where it is one.
fn difference_number(p: &Target, q: &Target) -> Option<u64>
    ensures { result ≡ difference_number p.now q.now }
{
    match (p, q) {
        (Target::Number(a), Target::Number(b)) => Some(a.wrapping_sub(*b)),
        (Target::Address(a, x), Target::Address(b, y)) if a == b => Some(x.wrapping_sub(*y)),
        _ => None,
    }
}

impl Cells {
    fn put_pointer(&mut self, at: u64, target: &Target) -> Result<(), AllocError>
        requires { at + 8 ≤ length (shown self.old) }
        ensures { OnOk result (shown self.new ≡ placed_cells at (pointer_cells target.now) (shown self.old)) }
    {
        match target {
            Target::Number(n) => {
                self.put_number(at, 8, *n);
                Ok(())
            }
            Target::Address(block, offset) => {
                let value = Value::Addr(Object::Block(*block), *offset);
                self.put_whole(at, 8, Whole::Value(value))
            }
            Target::Code(point) => self.put_whole(at, 8, Whole::Value(Value::At(*point))),
            Target::Undefined(_) => {
                self.put_blank(at, 8);
                Ok(())
            }
        }
    }

    /// Puts a difference that is no number.
    fn put_far(&mut self, at: u64, size: u8, p: &Target, q: &Target) -> Result<(), AllocError>
        requires size { size ≤ 8 }
        requires inside { at + size ≤ length (shown self.old) }
        ensures { OnOk result (shown self.new ≡ placed_cells at (far_cells size p.now q.now) (shown self.old)) }
    {
        if !(is_defined(p) && is_defined(q)) {
            self.put_blank(at, size);
            Ok(())
        } else if size == 8 {
            self.put_whole(at, 8, Whole::Value(Value::Diff(*p, *q)))
        } else {
            self.put_whole(at, size, Whole::Difference(*p, *q))
        }
    }

    fn put_difference(
        &mut self,
        at: u64,
        size: u8,
        p: &Target,
        q: &Target,
    ) -> Result<(), AllocError>
        requires size { size ≤ 8 }
        requires inside { at + size ≤ length (shown self.old) }
        ensures { OnOk result (shown self.new ≡ placed_cells at (difference_cells size p.now q.now) (shown self.old)) }
    {
        match difference_number(p, q) {
            Some(n) => {
                self.put_number(at, u64::from(size), n);
                Ok(())
            }
            None => self.put_far(at, size, p, q),
        }
    }

    fn put_entry(
        &mut self,
        at: u64,
        size: u8,
        scale: u8,
        p: &Target,
        q: &Target,
    ) -> Result<(), AllocError>
        requires size { size ≤ 8 }
        requires inside { at + size ≤ length (shown self.old) }
        ensures { OnOk result (shown self.new ≡ placed_cells at (entry_cells size scale p.now q.now) (shown self.old)) }
    {
        match (p, q) {
            (Target::Code(first), Target::Code(second)) => {
                let entry = Entry {
                    size,
                    scale,
                    first: *first,
                    second: *second,
                };
                self.put_whole(at, size, Whole::Entry(entry))
            }
            _ => {
                self.put_blank(at, size);
                Ok(())
            }
        }
    }

    /// Puts what stands for an expression.
    pub fn put_filling(&mut self, at: u64, filling: &Filling) -> Result<(), AllocError>
        requires size { filling_size filling.now ≤ 8 }
        requires inside { at + filling_size filling.now ≤ length (shown self.old) }
        ensures { OnOk result (shown self.new ≡ placed_cells at (filling_cells filling.now) (shown self.old)) }
    {
        match filling {
            Filling::Pointer(target) => self.put_pointer(at, target),
            Filling::Difference(size, p, q) => self.put_difference(at, *size, p, q),
            Filling::Entry(size, scale, p, q) => self.put_entry(at, *size, *scale, p, q),
        }
    }
}
