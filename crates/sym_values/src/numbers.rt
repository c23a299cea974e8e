//! Number functions of values.

ghost use Rattle.std.specs.Prelude.{◌≡◌, IsTrue, if◌then◌else◌};
ghost use Rattle.a64_inst.specs.Numbers.{bits_of, binary_value, is_copy};
ghost use Rattle.a64_inst.specs.Domain.{next};
ghost use Rattle.a64_ops.specs.Sound.{is_sound_unary, is_sound_binary};
ghost use Rattle.sym_expr.specs.declared.cause.Cause.TheVariants as causes;
ghost use Rattle.sym_expr.specs.declared.value.Value.TheVariants.{Num, Step};
ghost use Rattle.sym_expr.specs.Values.{number_in};
ghost use Rattle.sym_expr.specs.Symbolic.{keeps_step, of_numbers, or_stuck, unary_outcome};
ghost use Rattle.sym_values.specs.Answers.{answer_of};

use a64_inst::{Binary, Unary, Width};
use sym_expr::{Cause, Point, Value};

/// The number that a value is, if it is one.
pub fn number_in(value: &Value) -> Option<u64>
    ensures { result ≡ number_in value.now }
{
    match value {
        Value::Num(n) | Value::Step(_, _, n) => Some(*n),
        _ => None,
    }
}

/// The number that a value must be.
pub fn number(value: &Value) -> Result<u64, Cause>
    ensures { answer_of result ≡ or_stuck causes.Value (number_in value.now) }
{
    number_in(value).ok_or(Cause::Value)
}

/// The numbers that two values must be.
pub fn numbers(first: &Value, second: &Value) -> Result<(u64, u64), Cause>
    ensures { answer_of result ≡ of_numbers (λ m n. (m, n)) first.now second.now }
{
    let Some(m) = number_in(first) else {
        return Err(Cause::Value);
    };
    let Some(n) = number_in(second) else {
        return Err(Cause::Value);
    };
    Ok((m, n))
}

/// Whether a step stays one under a function of one number.
fn keeps_step(function: Unary, width: Width) -> bool
    ensures { result ≡ keeps_step function width }
{
    match (function, width) {
        (Unary::Shift { kind, .. }, Width::X) => kind == 0,
        (Unary::Extend { .. }, Width::X) => true,
        _ => false,
    }
}

/// What a function of one number gives of a step.
fn of_step(function: Unary, width: Width, first: Point, second: Point, n: u64) -> Value
    requires { IsTrue (is_sound_unary function width) }
    ensures { next result ≡ unary_outcome function width (Step first second n) }
{
    let number = a64_ops::unary(function, width, n);
    if keeps_step(function, width) {
        Value::Step(first, second, number)
    } else {
        Value::Num(number)
    }
}

/// What a function of one number gives.
fn unary(function: Unary, width: Width, value: &Value) -> Result<Value, Cause>
    requires { IsTrue (is_sound_unary function width) }
    ensures { answer_of result ≡ unary_outcome function width value.now }
{
    match *value {
        Value::Num(n) => Ok(Value::Num(a64_ops::unary(function, width, n))),
        Value::Step(first, second, n) => Ok(of_step(function, width, first, second, n)),
        _ => Err(Cause::Value),
    }
}

/// Whether a function leaves its operand as it is.
fn is_copy(function: Unary) -> bool
    ensures { result ≡ is_copy function }
{
    match function {
        Unary::Shift { amount, .. } => amount == 0,
        Unary::Extend { option, amount } => option % 4 == 3 && amount == 0,
        _ => false,
    }
}

/// An operand: a copy, or what a function of one number gives.
pub fn operand(function: Unary, width: Width, value: &Value) -> Result<Value, Cause>
    requires { IsTrue (is_sound_unary function width) }
    ensures { answer_of result ≡ (if is_copy function then next value.now else unary_outcome function width value.now) }
{
    if is_copy(function) {
        Ok(*value)
    } else {
        unary(function, width, value)
    }
}

/// What a function of two numbers gives.
pub fn binary(function: Binary, width: Width, first: &Value, second: &Value) -> Result<Value, Cause>
    requires { IsTrue (is_sound_binary function width) }
    ensures { answer_of result ≡ of_numbers (λ m n. Num (binary_value function (bits_of width) m n)) first.now second.now }
{
    let (m, n) = numbers(first, second)?;
    Ok(Value::Num(a64_ops::binary(function, width, m, n)))
}
