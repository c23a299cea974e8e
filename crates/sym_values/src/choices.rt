//! Choices of values, and tests of numbers.

ghost use Rattle.std.specs.Prelude.{◌≡◌};
ghost use Rattle.a64_inst.specs.Numbers.{bit_of, bits_of, chosen, zero_bit};
ghost use Rattle.sym_expr.specs.declared.value.Value.TheVariants.{Num};
ghost use Rattle.sym_expr.specs.Symbolic.{choose_outcome, of_number, other_outcome};
ghost use Rattle.sym_values.specs.Answers.{answer_of};

use crate::numbers::number;
use crate::sums::{is_zero, sum_of};
use a64_inst::Width;
use a64_numbers::numbers;
use indexed_program::IndexedProgram;
use sym_expr::{Cause, Value};

/// A truth as a value.
pub fn truth(holds: bool) -> Value
    ensures { result ≡ Num (bit_of holds) }
{
    Value::Num(u64::from(holds))
}

/// Whether a number is 0.
pub fn is_number_zero(negated: bool, width: Width, value: &Value) -> Result<Value, Cause>
    ensures { answer_of result ≡ of_number (zero_bit negated (bits_of width)) value.now }
{
    let n = number(value)?;
    Ok(truth(numbers::is_zero(negated, width, n)))
}

/// What a choice makes of a number.
fn chosen_number(
    inverted: bool,
    more: bool,
    width: Width,
    holds: bool,
    value: &Value,
) -> Result<Value, Cause>
    ensures { answer_of result ≡ of_number (λ n. chosen inverted more (bits_of width) (bit_of holds) n n) value.now }
{
    let n = number(value)?;
    Ok(Value::Num(numbers::chosen(inverted, more, width, holds, n, n)))
}

/// The second of two values, of 64 bits.
fn other(
    program: &IndexedProgram,
    inverted: bool,
    more: bool,
    value: &Value,
) -> Result<Value, Cause>
    ensures { answer_of result ≡ other_outcome program.now inverted more value.now }
{
    if inverted {
        chosen_number(true, more, Width::X, false, value)
    } else if more {
        sum_of(program, value, &Value::Num(1))
    } else {
        Ok(*value)
    }
}

/// A choice by a test, which is 0 or 1; what isn't chosen isn't looked at.
pub fn choose(
    program: &IndexedProgram,
    inverted: bool,
    more: bool,
    width: Width,
    test: &Value,
    first: &Value,
    second: &Value,
) -> Result<Value, Cause>
    ensures { answer_of result ≡ choose_outcome program.now inverted more width test.now first.now second.now }
{
    match (width, is_zero(test)) {
        (Width::W, true) => chosen_number(inverted, more, width, false, second),
        (Width::W, false) => chosen_number(inverted, more, width, true, first),
        (Width::X, true) => other(program, inverted, more, second),
        (Width::X, false) => Ok(*first),
    }
}
