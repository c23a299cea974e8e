//! What the target of an instruction gives.

ghost use Rattle.std.specs.Prelude.{◌≡◌, ◌<◌, ◌≤◌, ◌%◌, ◌/◌, ◌==◌, false};
ghost use Rattle.std.specs.Option.{option_map_or};
ghost use Rattle.a64_inst.specs.declared.operations.Sum.TheVariants.{Add};
ghost use Rattle.a64_inst.specs.Numbers.{sum_value};
ghost use Rattle.sym_expr.specs.Points.{data_at, object_alignment};
ghost use Rattle.sym_expr.specs.Tables.{common_power};
ghost use Rattle.sym_expr.specs.declared.cause.Cause.TheVariants as causes;
ghost use Rattle.sym_expr.specs.declared.value.Value.TheVariants.{PageOf};
ghost use Rattle.sym_expr.specs.Values.{value_of, page_value};
ghost use Rattle.sym_expr.specs.Symbolic.{join_low_outcome, joined, joined_to, of_number, one_granule, or_stuck, target_outcome};
ghost use Rattle.sym_values.specs.Answers.{answer_of};

use crate::numbers::number;
use crate::same::same_target;
use crate::sums::sum_of;
use a64_inst::{Sum, Width};
use a64_numbers::sums;
use indexed_program::IndexedProgram;
use sym_expr::{Cause, DataBlock, Object, Target, Value};
use uuid::Uuid;

/// What a target is, where it is defined.
pub fn value_of(target: &Target) -> Option<Value>
    ensures { result ≡ value_of target.now }
{
    match *target {
        Target::Number(n) => Some(Value::Num(n)),
        Target::Address(block, offset) => Some(Value::Addr(Object::Block(block), offset)),
        Target::Code(point) => Some(Value::At(point)),
        Target::Undefined(_) => None,
    }
}

/// The page of a target, where it is defined.
fn page_value(target: &Target) -> Option<Value>
    ensures { result ≡ page_value target.now }
{
    match *target {
        Target::Number(n) => Some(Value::Num(n / 4096 * 4096)),
        Target::Undefined(_) => None,
        _ => Some(Value::PageOf(*target)),
    }
}

/// What a target is, which must be defined.
fn defined(target: &Target) -> Result<Value, Cause>
    ensures { answer_of result ≡ or_stuck causes.Undefined (value_of target.now) }
{
    match value_of(target) {
        Some(value) => Ok(value),
        None => Err(Cause::Undefined),
    }
}

/// The page of a target, which must be defined.
fn defined_page(target: &Target) -> Result<Value, Cause>
    ensures { answer_of result ≡ or_stuck causes.Undefined (page_value target.now) }
{
    match page_value(target) {
        Some(value) => Ok(value),
        None => Err(Cause::Undefined),
    }
}

/// The address of what the instruction's expression names, or its page.
pub fn target(page: bool, named: &Option<Target>) -> Result<Value, Cause>
    ensures { answer_of result ≡ target_outcome page named.now }
{
    match named {
        Some(target) if page => defined_page(target),
        Some(target) => defined(target),
        None => Err(Cause::Plain),
    }
}

/// The greatest power of two, up to this one, that divides both numbers.
fn common_power(most: u32, a: u64, b: u64) -> u64
    requires { most ≤ 12 }
    ensures value { result ≡ common_power most a b }
    ensures some { 0 < result }
{
    if most == 0 {
        return 1;
    }
    let power = 1u64 << most;
    if a % power == 0 && b % power == 0 {
        power
    } else {
        common_power(most - 1, a, b)
    }
}

/// The effective alignment of a data block.
fn object_alignment(block: &DataBlock) -> u64
    ensures value { result ≡ object_alignment block.now }
    ensures some { 0 < result }
{
    match block.alignment {
        Some(entry) if !block.bytes.is_empty() && entry > 0 => {
            common_power(12, entry, block.offset)
        }
        _ => 1,
    }
}

/// Whether two offsets lie in one granule of a data block.
fn share_granule(program: &IndexedProgram, block: &Uuid, x: u64, y: u64) -> bool
    ensures { result ≡ option_map_or (λ d. x / object_alignment d == y / object_alignment d) (data_at program.now block.now) false }
{
    match program.data_block(*block) {
        Some(data) => {
            let size = object_alignment(data);
            x / size == y / size
        }
        None => false,
    }
}

/// Whether two targets lie in one granule of a data block.
fn one_granule(program: &IndexedProgram, first: &Target, second: &Target) -> bool
    ensures { result ≡ one_granule program.now first.now second.now }
{
    match (first, second) {
        (Target::Address(block, x), Target::Address(other, y)) => {
            block == other && share_granule(program, block, *x, *y)
        }
        _ => false,
    }
}

/// A target where another lies in its page, or in its granule.
fn in_page(program: &IndexedProgram, target: &Target, page: &Target) -> Result<Value, Cause>
    ensures { answer_of result ≡ joined_to program.now target.now (PageOf page.now) }
{
    if !same_target(target, page) && !one_granule(program, target, page) {
        return Err(Cause::Value);
    }
    match value_of(target) {
        Some(value) => Ok(value),
        None => Err(Cause::Value),
    }
}

/// The page of a target joined with the low twelve bits of another.
fn joined_to(program: &IndexedProgram, target: &Target, value: &Value) -> Result<Value, Cause>
    ensures { answer_of result ≡ joined_to program.now target.now value.now }
{
    match value {
        Value::PageOf(page) => in_page(program, target, page),
        _ => Err(Cause::Value),
    }
}

/// The low twelve bits of a number target, added to a number.
fn number_joined(value: &Value, n: u64) -> Result<Value, Cause>
    ensures { answer_of result ≡ of_number (λ m. sum_value Add 64 m (n % 4096)) value.now }
{
    let m = number(value)?;
    Ok(Value::Num(sums::sum(Sum::Add, Width::X, m, n % 4096)))
}

/// A value joined with the low twelve bits of a target.
fn joined(program: &IndexedProgram, value: &Value, target: &Target) -> Result<Value, Cause>
    ensures { answer_of result ≡ joined program.now value.now target.now }
{
    match *target {
        Target::Number(n) => number_joined(value, n),
        Target::Undefined(_) => Err(Cause::Undefined),
        _ => joined_to(program, target, value),
    }
}

/// A value joined with the low twelve bits of the expression's target; else plus a field times a unit.
pub fn join_low(
    program: &IndexedProgram,
    unit: u8,
    field: u16,
    value: &Value,
    named: &Option<Target>,
) -> Result<Value, Cause>
    ensures { answer_of result ≡ join_low_outcome program.now unit field value.now named.now }
{
    match named {
        Some(target) => joined(program, value, target),
        None => {
            let offset = u64::from(field) * u64::from(unit);
            sum_of(program, value, &Value::Num(offset))
        }
    }
}
