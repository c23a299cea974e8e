//! Tests of values.

ghost use Rattle.std.specs.Prelude.{◌≡◌};
ghost use Rattle.sym_expr.specs.declared.value.Value.TheVariants.{Addr};
ghost use Rattle.sym_expr.specs.Symbolic.{is_zero_outcome, zero_outcome};
ghost use Rattle.sym_values.specs.Answers.{answer_of};
ghost use Rattle.sym_step.specs.Runner.{state};

use crate::runner::Runner;
use a64_inst::Width;
use sym_expr::{Cause, Object, Value};
use sym_values::{is_number_zero, truth};

impl<'a> Runner<'a> {
    /// Whether an address in an object is 0, which it isn't.
    fn is_offset_zero(&self, negated: bool, object: &Object, at: u64) -> Result<Value, Cause>
        ensures { answer_of result ≡ zero_outcome negated (Addr object.now at) (state self.now) }
    {
        if at <= self.memory.size(*object) {
            Ok(truth(negated))
        } else {
            Err(Cause::Value)
        }
    }

    /// Whether a value is 0.
    pub fn is_zero(&self, negated: bool, width: Width, value: &Value) -> Result<Value, Cause>
        ensures { answer_of result ≡ is_zero_outcome negated width value.now (state self.now) }
    {
        match (width, value) {
            (Width::X, Value::At(_)) => Ok(truth(negated)),
            (Width::X, Value::Addr(object, at)) => self.is_offset_zero(negated, object, *at),
            _ => is_number_zero(negated, width, value),
        }
    }
}
