//! Loads.

ghost use Rattle.std.specs.Prelude.{◌≡◌, IsTrue};
ghost use Rattle.a64_ops.specs.Sound.{is_size};
ghost use Rattle.sym_expr.specs.Symbolic.{is_inside, load_outcome};
ghost use Rattle.sym_values.specs.Answers.{answer_of};
ghost use Rattle.sym_step.specs.Runner.{state};

use crate::runner::Runner;
use a64_inst::Width;
use indexed_program::IndexedProgram;
use sym_expr::{Cause, Object, Value};

impl<'a> Runner<'a> {
    /// Whether so many bytes from an offset on lie in an object.
    pub fn is_inside(&self, object: &Object, at: u64, count: u64) -> bool
        ensures { result ≡ is_inside (state self.now) object.now at count }
    {
        self.memory.is_inside(object, at, count)
    }

    /// What stands at an address, with its sign to a width or without.
    pub fn load(
        &self,
        program: &IndexedProgram,
        count: u8,
        signed: bool,
        width: Width,
        at: &Value,
    ) -> Result<Value, Cause>
        requires { IsTrue (is_size count) }
        ensures { answer_of result ≡ load_outcome program.now count signed width at.now (state self.now) }
    {
        let Value::Addr(object, offset) = at else {
            return Err(Cause::Value);
        };
        if self.is_inside(object, *offset, u64::from(count)) {
            self.memory
                .read(program, count, signed, width, object, *offset)
        } else {
            Err(Cause::Outside)
        }
    }
}
