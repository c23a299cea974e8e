//! The flags that sums set in the machine, and what conditions make of its flags.

ghost use Rattle.std.specs.Prelude.{◌≡◌};
ghost use Rattle.std.specs.Option.{option_map};
ghost use Rattle.a64_inst.specs.Numbers.{bit_of};
ghost use Rattle.a64_inst.specs.Domain.{next};
ghost use Rattle.sym_expr.specs.declared.cause.Cause.TheVariants.{Flag};
ghost use Rattle.sym_expr.specs.declared.value.Value.TheVariants.{Addr, Num};
ghost use Rattle.sym_expr.specs.Symbolic.{compared, condition_outcome, flags_outcome, or_stuck};
ghost use Rattle.sym_values.specs.Answers.{answer_of};
ghost use Rattle.sym_step.specs.Runner.{state};

use crate::runner::Runner;
use a64_inst::{Sum, Width};
use sym_expr::{Cause, KnownFlags, Object, Value};
use sym_values::{
    UNKNOWN, can_ask, compared_points, flags_of_offsets, flags_of_other, flags_of_positive,
    guessed, is_address, number_flags, point_and_number, same_object,
};

impl<'a> Runner<'a> {
    /// The carry, as 1 or 0.
    pub fn carry(&self) -> Result<Value, Cause>
        ensures { answer_of result ≡ or_stuck Flag (option_map (λ c. Num (bit_of c)) (state self.now).flags.c) }
    {
        match self.flags.c {
            Some(carry) => Ok(Value::Num(u64::from(carry))),
            None => Err(Cause::Flag),
        }
    }

    /// Whether a condition holds, as 1 or 0.
    pub fn condition(&self, which: u8) -> Result<Value, Cause>
        ensures { answer_of result ≡ condition_outcome which (state self.now) }
    {
        if !can_ask(which / 2, &self.flags) {
            return Err(Cause::Flag);
        }
        Ok(Value::Num(u64::from(guessed(&self.flags).hold(which))))
    }

    /// Of two addresses in objects.
    fn compared_offsets(
        &self,
        object: &Object,
        x: u64,
        other: &Object,
        y: u64,
    ) -> Result<KnownFlags, Cause>
        ensures { answer_of result ≡ compared (state self.now) (Addr object.now x) (Addr other.now y) }
    {
        let size = self.memory.size(*object);
        if same_object(object, other) {
            Ok(flags_of_offsets(size, x, y))
        } else if x < size && y < self.memory.size(*other) {
            Ok(flags_of_other())
        } else {
            Err(Cause::Value)
        }
    }

    /// Of an address in an object and a number.
    fn compared_to_number(&self, object: &Object, x: u64, n: u64) -> KnownFlags
        ensures { next result ≡ compared (state self.now) (Addr object.now x) (Num n) }
    {
        if n == 0 && x <= self.memory.size(*object) {
            flags_of_positive()
        } else {
            UNKNOWN
        }
    }

    /// Of the difference of two values.
    fn compared(&self, a: &Value, b: &Value) -> Result<KnownFlags, Cause>
        ensures { answer_of result ≡ compared (state self.now) a.now b.now }
    {
        match (a, b) {
            (Value::Addr(object, x), Value::Addr(other, y)) => {
                self.compared_offsets(object, *x, other, *y)
            }
            (Value::At(at), Value::At(other)) => compared_points(at, other),
            (Value::At(_), Value::Num(n) | Value::Step(_, _, n)) => Ok(point_and_number(*n)),
            (Value::Addr(object, x), Value::Num(n) | Value::Step(_, _, n)) => {
                Ok(self.compared_to_number(object, *x, *n))
            }
            _ => number_flags(Sum::Subtract, Width::X, a, b),
        }
    }

    /// Of a sum or a difference.
    pub fn flags_of(
        &self,
        sum: Sum,
        width: Width,
        a: &Value,
        b: &Value,
    ) -> Result<KnownFlags, Cause>
        ensures { answer_of result ≡ flags_outcome (state self.now) sum width a.now b.now }
    {
        match (width, sum) {
            (Width::W, _) => number_flags(sum, width, a, b),
            (Width::X, Sum::Subtract) => self.compared(a, b),
            (Width::X, Sum::Add) if is_address(a) || is_address(b) => Ok(UNKNOWN),
            (Width::X, Sum::Add) => number_flags(sum, width, a, b),
        }
    }
}
