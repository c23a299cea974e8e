//! Sums and differences of values.

ghost use Rattle.std.specs.Prelude.{◌≡◌, false, ◌*◌, ◌^◌, ◌%◌, ◌<ℤ◌, ◌≤ℤ◌, pos, IsTrue, unsigned_abs};
ghost use Rattle.std.specs.Int.{int_rem_euclid};
ghost use Rattle.std.specs.Option.{option_map_or};
ghost use Rattle.a64_inst.specs.declared.operations.Sum.TheVariants.{Add, Subtract};
ghost use Rattle.a64_inst.specs.Numbers.{sum_value, bits_of};
ghost use Rattle.a64_ops.specs.Sound.{is_size};
ghost use Rattle.sym_expr.specs.declared.value.Value.TheVariants.{Addr, At, Num};
ghost use Rattle.sym_expr.specs.States.{less};
ghost use Rattle.sym_expr.specs.Symbolic.{across, added, difference_of, is_zero, moved, of_numbers, plus_step, stepped, sum_of, sum_outcome, wrapped};
ghost use Rattle.sym_expr.specs.Values.{same_value, value_of};
ghost use Rattle.sym_values.specs.Answers.{answer_of};

use crate::numbers::numbers;
use crate::same::{same_object, same_point};
use crate::targets::value_of;
use a64_inst::{Sum, Width};
use a64_numbers::sums;
use indexed_program::IndexedProgram;
use sym_expr::{Cause, Object, Point, Target, Value};

/// Whether a value is the number 0.
pub fn is_zero(value: &Value) -> bool
    ensures { result ≡ is_zero value.now }
{
    match *value {
        Value::Num(n) => n == 0,
        _ => false,
    }
}

/// One number less another, modulo 2^64.
pub fn less(a: u64, b: u64) -> u64
    ensures { result ≡ less a b }
{
    a.wrapping_sub(b)
}

/// A whole number modulo another.
fn remainder(z: i128, all: i128) -> u64
    requires some { pos 0 <ℤ all }
    requires most { all ≤ℤ pos (2 ^ 64) }
    ensures { result ≡ unsigned_abs (int_rem_euclid z all) }
{
    z.rem_euclid(all).unsigned_abs() as u64
}

/// A whole number modulo what so many bytes hold.
pub fn wrapped(bytes: u8, z: i128) -> u64
    requires { IsTrue (is_size bytes) }
    ensures { result ≡ wrapped (8 * bytes) z }
{
    match bytes {
        1 => remainder(z, 1 << 8),
        2 => remainder(z, 1 << 16),
        4 => remainder(z, 1 << 32),
        _ => remainder(z, 1 << 64),
    }
}

/// A number more in an object.
fn moved(object: Object, offset: u64, n: u64) -> Value
    ensures { result ≡ moved object offset n }
{
    Value::Addr(object, offset.wrapping_add(n))
}

/// A number less in an object.
fn moved_back(object: Object, offset: u64, n: u64) -> Value
    ensures { result ≡ Addr object (less offset (n % 2 ^ 64)) }
{
    Value::Addr(object, less(offset, n))
}

/// Whether a value is what a target is.
fn stands_for(value: &Value, target: &Target) -> bool
    ensures { result ≡ option_map_or (same_value value.now) (value_of target.now) false }
{
    match (target, value) {
        (Target::Number(m), Value::Num(n)) => m == n,
        (Target::Address(block, x), Value::Addr(Object::Block(other), y)) => {
            block == other && x == y
        }
        (Target::Code(at), Value::At(other)) => same_point(at, other),
        _ => false,
    }
}

/// The address of the first target of a difference, where the other value is that of the second.
fn across(first: &Target, second: &Target, other: &Value) -> Result<Value, Cause>
    ensures { answer_of result ≡ across first.now second.now other.now }
{
    if !stands_for(other, second) {
        return Err(Cause::Value);
    }
    match value_of(first) {
        Some(value) => Ok(value),
        None => Err(Cause::Value),
    }
}

/// A value and a step that is no more than its number.
fn plus_step(value: Value, n: u64) -> Result<Value, Cause>
    ensures { answer_of result ≡ plus_step value n }
{
    if n == 0 { Ok(value) } else { Err(Cause::Value) }
}

/// The first point of a step, where the number is the distance from the second, which is the other value.
fn stepped(
    program: &IndexedProgram,
    first: &Point,
    second: &Point,
    n: u64,
    at: &Point,
) -> Result<Value, Cause>
    ensures { answer_of result ≡ stepped program.now first.now second.now n at.now }
{
    if same_point(at, second) && n == wrapped(8, program.distance(*first, *second)) {
        Ok(Value::At(*first))
    } else {
        plus_step(Value::At(*at), n)
    }
}

/// The sum of two numbers.
fn number_sum(sum: Sum, width: Width, a: &Value, b: &Value) -> Result<Value, Cause>
    ensures { answer_of result ≡ of_numbers (λ m n. Num (sum_value sum (bits_of width) m n)) a.now b.now }
{
    let (m, n) = numbers(a, b)?;
    Ok(Value::Num(sums::sum(sum, width, m, n)))
}

/// The sum of two values that aren't 0.
fn added(program: &IndexedProgram, a: &Value, b: &Value) -> Result<Value, Cause>
    ensures { answer_of result ≡ added program.now a.now b.now }
{
    match (a, b) {
        (Value::Addr(object, x), Value::Num(n) | Value::Step(_, _, n)) => Ok(moved(
            *object, *x, *n,
        )),
        (Value::Num(n) | Value::Step(_, _, n), Value::Addr(object, x)) => Ok(moved(
            *object, *x, *n,
        )),
        (Value::Addr(..) | Value::At(_), Value::Diff(p, q)) => across(p, q, a),
        (Value::Diff(p, q), Value::Addr(..) | Value::At(_)) => across(p, q, b),
        (Value::At(at), Value::Step(p, q, n)) => stepped(program, p, q, *n, at),
        (Value::Step(p, q, n), Value::At(at)) => stepped(program, p, q, *n, at),
        (Value::PageOf(_) | Value::Diff(..), Value::Step(_, _, n)) => plus_step(*a, *n),
        (Value::Step(_, _, n), Value::PageOf(_) | Value::Diff(..)) => plus_step(*b, *n),
        _ => number_sum(Sum::Add, Width::X, a, b),
    }
}

/// The sum of two values: any value plus 0 is that value.
pub fn sum_of(program: &IndexedProgram, a: &Value, b: &Value) -> Result<Value, Cause>
    ensures { answer_of result ≡ sum_of program.now a.now b.now }
{
    if is_zero(b) {
        Ok(*a)
    } else if is_zero(a) {
        Ok(*b)
    } else {
        added(program, a, b)
    }
}

/// The difference of two addresses in objects.
fn offset_difference(object: &Object, x: u64, other: &Object, y: u64) -> Result<Value, Cause>
    ensures { answer_of result ≡ difference_of (Addr object.now x) (Addr other.now y) }
{
    if same_object(object, other) {
        Ok(Value::Num(less(x, y)))
    } else {
        Err(Cause::Value)
    }
}

/// The difference of two addresses in code.
fn point_difference(at: &Point, other: &Point) -> Result<Value, Cause>
    ensures { answer_of result ≡ difference_of (At at.now) (At other.now) }
{
    if same_point(at, other) {
        Ok(Value::Num(0))
    } else {
        Err(Cause::Value)
    }
}

/// The difference of two values.
fn difference_of(a: &Value, b: &Value) -> Result<Value, Cause>
    ensures { answer_of result ≡ difference_of a.now b.now }
{
    match (a, b) {
        (Value::Addr(object, x), Value::Num(n) | Value::Step(_, _, n)) => {
            Ok(moved_back(*object, *x, *n))
        }
        (Value::Addr(object, x), Value::Addr(other, y)) => offset_difference(object, *x, other, *y),
        (Value::At(at), Value::At(other)) => point_difference(at, other),
        _ => number_sum(Sum::Subtract, Width::X, a, b),
    }
}

/// A sum, or a difference; of 32 bits numbers alone have one.
pub fn sum(
    program: &IndexedProgram,
    sum: Sum,
    width: Width,
    a: &Value,
    b: &Value,
) -> Result<Value, Cause>
    ensures { answer_of result ≡ sum_outcome program.now sum width a.now b.now }
{
    match (width, sum) {
        (Width::W, _) => number_sum(sum, width, a, b),
        (Width::X, Sum::Add) => sum_of(program, a, b),
        (Width::X, Sum::Subtract) => difference_of(a, b),
    }
}
