//! Operations that give a value.

ghost use Rattle.std.specs.Prelude.{◌≡◌, List, ◌∷◌, ◌++◌, [], IsTrue, slice_index_or};
ghost use Rattle.a64_inst.specs.Domain.{perform, then_do};
ghost use Rattle.a64_ops.specs.Sound.{is_sound};
ghost use Rattle.sym_expr.specs.declared.value.Value.{Value as ValueOf};
ghost use Rattle.sym_expr.specs.declared.value.Value.TheVariants.{Num};
ghost use Rattle.sym_expr.specs.States.{State};
ghost use Rattle.sym_expr.specs.Symbolic.{Outcome, symbolic};
ghost use Rattle.sym_values.specs.Answers.{answer_of};
ghost use Rattle.sym_step.specs.Runner.{computes, decides, gives, state};

use crate::runner::Runner;
use a64_inst::Op;
use indexed_program::IndexedProgram;
use sym_expr::{Cause, Value};
use sym_values::{binary, choose, join_low, operand, sum, target};

/// The value at a place: one that there is not is the number 0.
pub fn value_at(values: &[Value], place: u8) -> Value
    ensures { result ≡ slice_index_or values.now place (Num 0) }
{
    match values.get(place as usize) {
        Some(value) => *value,
        None => Value::Num(0),
    }
}

/// Whether an operation gives a value.
pub fn gives(op: &Op) -> bool
    ensures { result ≡ gives op.now }
{
    matches!(
        op,
        Op::Number(_)
            | Op::Target { .. }
            | Op::Read { .. }
            | Op::Carry
            | Op::Copy(_)
            | Op::Unary { .. }
            | Op::Binary { .. }
            | Op::Sum { .. }
            | Op::JoinLow { .. }
            | Op::Load { .. }
            | Op::Condition(_)
            | Op::IsZero { .. }
            | Op::Choose { .. }
    )
}

impl<'a> Runner<'a> {
    /// The value that a test, a choice or a joining of values gives, and any where it is none of these.
    fn decided(&self, program: &IndexedProgram, op: Op, values: &[Value]) -> Result<Value, Cause>
        requires { IsTrue (is_sound op) }
        ensures { IsTrue (decides op) → (go : List ValueOf → State → Outcome State) → perform (symbolic program.now) op go values.now (state self.now) ≡ then_do (answer_of result) (λ v. go (values.now ++ v ∷ []) (state self.now)) }
    {
        match op {
            Op::JoinLow { unit, field, value } => join_low(
                program,
                unit,
                field,
                &value_at(values, value),
                &self.named,
            ),
            Op::IsZero {
                negated,
                width,
                value,
            } => self.is_zero(negated, width, &value_at(values, value)),
            Op::Choose {
                inverted,
                more,
                width,
                test,
                first,
                second,
            } => choose(
                program,
                inverted,
                more,
                width,
                &value_at(values, test),
                &value_at(values, first),
                &value_at(values, second),
            ),
            _ => Err(Cause::Value),
        }
    }

    /// The value that an operation on values gives, and any where it is none.
    fn computed(&self, program: &IndexedProgram, op: Op, values: &[Value]) -> Result<Value, Cause>
        requires { IsTrue (is_sound op) }
        ensures { IsTrue (computes op) → (go : List ValueOf → State → Outcome State) → perform (symbolic program.now) op go values.now (state self.now) ≡ then_do (answer_of result) (λ v. go (values.now ++ v ∷ []) (state self.now)) }
    {
        match op {
            Op::Unary {
                function,
                width,
                value,
            } => operand(function, width, &value_at(values, value)),
            Op::Binary {
                function,
                width,
                first,
                second,
            } => binary(
                function,
                width,
                &value_at(values, first),
                &value_at(values, second),
            ),
            Op::Sum {
                sum: kind,
                width,
                first,
                second,
            } => sum(
                program,
                kind,
                width,
                &value_at(values, first),
                &value_at(values, second),
            ),
            _ => self.decided(program, op, values),
        }
    }

    /// The value that an operation gives.
    pub fn given(&self, program: &IndexedProgram, op: Op, values: &[Value]) -> Result<Value, Cause>
        requires sound { IsTrue (is_sound op) }
        requires gives { IsTrue (gives op) }
        ensures { (go : List ValueOf → State → Outcome State) → perform (symbolic program.now) op go values.now (state self.now) ≡ then_do (answer_of result) (λ v. go (values.now ++ v ∷ []) (state self.now)) }
    {
        match op {
            Op::Number(n) => Ok(Value::Num(n)),
            Op::Target { page, .. } => target(page, &self.named),
            Op::Read { stack, register } => Ok(self.register(stack, register)),
            Op::Carry => self.carry(),
            Op::Copy(place) => Ok(value_at(values, place)),
            Op::Load {
                bytes,
                signed,
                width,
                at,
            } => self.load(program, bytes, signed, width, &value_at(values, at)),
            Op::Condition(which) => self.condition(which),
            _ => self.computed(program, op, values),
        }
    }
}
