//! What a load makes of cells.

ghost use Rattle.std.specs.Prelude.{◌≡◌, ◌≤◌, ◌+◌, pos, None, IsTrue, nat_le, drop, length, take};
ghost use Rattle.std.specs.Int.{int_div_euclid};
ghost use Rattle.a64_ops.specs.Sound.{is_size};
ghost use Rattle.sym_expr.specs.Symbolic.{entry_step, formed_value, number_of_cells, read_cells, taken, takes_quarters};
ghost use Rattle.sym_values.specs.Answers.{answer_of};
ghost use Rattle.sym_values.specs.Kept.{kept_cells};

use crate::kept::KeptCells;
use crate::sums::wrapped;
use a64_inst::Width;
use a64_numbers::numbers::sign_extended;
use cell_memory::Entry;
use indexed_program::IndexedProgram;
use sym_expr::{Cause, Object, Value};

/// A number of so many bytes, with its sign to a width or without.
fn taken(count: u8, signed: bool, width: Width, n: u64) -> u64
    requires { IsTrue (is_size count) }
    ensures { result ≡ taken count signed width n }
{
    if signed {
        sign_extended(width, 8 * count, n)
    } else {
        n
    }
}

/// How many units of a scale a distance has.
fn units(distance: i128, scale: u8) -> i128
    ensures { result ≡ int_div_euclid distance (pos scale) }
{
    if scale != 0 {
        distance.div_euclid(i128::from(scale))
    } else if distance < 0 {
        -1
    } else {
        0
    }
}

/// The step that a load makes of an entry.
fn entry_step(
    program: &IndexedProgram,
    count: u8,
    signed: bool,
    width: Width,
    entry: &Entry,
) -> Value
    requires { IsTrue (is_size count) }
    ensures { result ≡ entry_step program.now count signed width entry.now.scale entry.now.first entry.now.second }
{
    let distance = program.distance(entry.first, entry.second);
    let n = wrapped(count, units(distance, entry.scale));
    Value::Step(entry.first, entry.second, taken(count, signed, width, n))
}

/// Whether a load takes differences.
fn takes_quarters(count: u8, signed: bool, width: Width) -> bool
    ensures { result ≡ takes_quarters count signed width }
{
    match width {
        Width::W => false,
        Width::X => count == 4 && signed,
    }
}

impl KeptCells {
    /// Whether so many bytes from an offset on lie in an object.
    pub fn is_inside(&self, object: &Object, at: u64, count: u64) -> bool
        ensures { result ≡ nat_le (at + count) (length (kept_cells self.now object.now)) }
    {
        let size = self.size(*object);
        at <= size && count <= size - at
    }

    /// The value that cells that are no number form for a load.
    fn formed(
        &self,
        program: &IndexedProgram,
        count: u8,
        signed: bool,
        width: Width,
        object: &Object,
        at: u64,
    ) -> Option<Value>
        requires size { IsTrue (is_size count) }
        requires inside { at + count ≤ length (kept_cells self.now object.now) }
        requires no_number { number_of_cells (take count (drop at (kept_cells self.now object.now))) ≡ None }
        ensures { result ≡ formed_value program.now count signed width (take count (drop at (kept_cells self.now object.now))) }
    {
        if let Some(entry) = self.entry(*object, at, u64::from(count)) {
            return Some(entry_step(program, count, signed, width, &entry));
        }
        if takes_quarters(count, signed, width) {
            self.whole_difference(*object, at)
        } else if count == 8 {
            self.whole_value(*object, at)
        } else {
            None
        }
    }

    /// What a load reads of cells that are no number.
    fn read_parts(
        &self,
        program: &IndexedProgram,
        count: u8,
        signed: bool,
        width: Width,
        object: &Object,
        at: u64,
    ) -> Result<Value, Cause>
        requires size { IsTrue (is_size count) }
        requires inside { at + count ≤ length (kept_cells self.now object.now) }
        requires no_number { number_of_cells (take count (drop at (kept_cells self.now object.now))) ≡ None }
        ensures { answer_of result ≡ read_cells program.now count signed width (take count (drop at (kept_cells self.now object.now))) }
    {
        if self.has_blank(*object, at, u64::from(count)) {
            return Err(Cause::Undefined);
        }
        match self.formed(program, count, signed, width, object, at) {
            Some(value) => Ok(value),
            None => Err(Cause::Mixed),
        }
    }

    /// What a load reads inside an object.
    #[tactic(auto, using(crate::proofs::Cells::numbers_have_no_blank))]
    pub fn read(
        &self,
        program: &IndexedProgram,
        count: u8,
        signed: bool,
        width: Width,
        object: &Object,
        at: u64,
    ) -> Result<Value, Cause>
        requires size { IsTrue (is_size count) }
        requires inside { at + count ≤ length (kept_cells self.now object.now) }
        ensures { answer_of result ≡ read_cells program.now count signed width (take count (drop at (kept_cells self.now object.now))) }
    {
        match self.number(*object, at, u64::from(count)) {
            Some(n) => Ok(Value::Num(taken(count, signed, width, n))),
            None => self.read_parts(program, count, signed, width, object, at),
        }
    }
}
