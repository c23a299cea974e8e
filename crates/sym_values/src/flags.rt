//! The flags that sums of values set, and what conditions ask of flags.

ghost use Rattle.std.specs.Prelude.{◌≡◌, ◌==◌, if◌then◌else◌};
ghost use Rattle.a64_inst.specs.Numbers.{bits_of, sum_flags};
ghost use Rattle.a64_inst.specs.Domain.{next, stuck};
ghost use Rattle.sym_expr.specs.declared.cause.Cause.TheVariants.{Value as ValueCause};
ghost use Rattle.sym_expr.specs.States.{flags_unknown};
ghost use Rattle.sym_expr.specs.Values.{same_point};
ghost use Rattle.sym_expr.specs.Symbolic.{can_ask, carried_outcome, flags_of_equal, flags_of_offsets, flags_of_other, flags_of_positive, guessed, is_address, known, of_numbers};
ghost use Rattle.sym_values.specs.Answers.{answer_of};

use crate::carries::carry_flags;
use crate::numbers::{number, numbers};
use crate::same::same_point;
use crate::sums::less;
use a64_inst::{Flags, Sum, Width};
use a64_numbers::sums::flags_of_sum;
use sym_expr::{Cause, KnownFlags, Point, Value};

/// No flag is known.
pub const UNKNOWN: KnownFlags = KnownFlags {
    n: None,
    z: None,
    c: None,
    v: None,
};

/// Flags that are all known.
pub fn known(flags: Flags) -> KnownFlags
    ensures { result ≡ known flags }
{
    KnownFlags {
        n: Some(flags.n),
        z: Some(flags.z),
        c: Some(flags.c),
        v: Some(flags.v),
    }
}

/// Of two addresses that are one: as of 0 less 0.
fn flags_of_equal() -> KnownFlags
    ensures { result ≡ flags_of_equal }
{
    KnownFlags {
        n: Some(false),
        z: Some(true),
        c: Some(true),
        v: Some(false),
    }
}

/// Of an address and 0: as of a positive number less 0.
pub fn flags_of_positive() -> KnownFlags
    ensures { result ≡ flags_of_positive }
{
    KnownFlags {
        n: Some(false),
        z: Some(false),
        c: Some(true),
        v: Some(false),
    }
}

/// Of addresses in two objects.
pub fn flags_of_other() -> KnownFlags
    ensures { result ≡ flags_of_other }
{
    KnownFlags {
        n: None,
        z: Some(false),
        c: None,
        v: None,
    }
}

/// Of two addresses in an object of this size.
pub fn flags_of_offsets(size: u64, x: u64, y: u64) -> KnownFlags
    ensures { result ≡ flags_of_offsets size x y }
{
    let difference = less(x, y);
    let inside = x <= size && y <= size;
    KnownFlags {
        n: Some(difference >= 0x8000_0000_0000_0000),
        z: Some(difference == 0),
        c: if inside { Some(x >= y) } else { None },
        v: if inside { Some(false) } else { None },
    }
}

/// Of two addresses in code.
pub fn compared_points(at: &Point, other: &Point) -> Result<KnownFlags, Cause>
    ensures { answer_of result ≡ (if same_point at.now other.now then next flags_of_equal else stuck ValueCause) }
{
    if same_point(at, other) {
        Ok(flags_of_equal())
    } else {
        Err(Cause::Value)
    }
}

/// Of an address in code and a number.
pub fn point_and_number(n: u64) -> KnownFlags
    ensures { result ≡ (if n == 0 then flags_of_positive else flags_unknown) }
{
    if n == 0 { flags_of_positive() } else { UNKNOWN }
}

/// Of a number sum.
pub fn number_flags(sum: Sum, width: Width, a: &Value, b: &Value) -> Result<KnownFlags, Cause>
    ensures { answer_of result ≡ of_numbers (λ m n. known (sum_flags sum (bits_of width) m n)) a.now b.now }
{
    let (m, n) = numbers(a, b)?;
    Ok(known(flags_of_sum(sum, width, m, n)))
}

/// Of a sum with a carry, which is of numbers alone.
pub fn carried_flags(
    sum: Sum,
    width: Width,
    a: &Value,
    b: &Value,
    carry: &Value,
) -> Result<KnownFlags, Cause>
    ensures { answer_of result ≡ carried_outcome sum width a.now b.now carry.now }
{
    let m = number(a)?;
    let n = number(b)?;
    let k = number(carry)?;
    Ok(known(carry_flags(sum, width, m, n, k)))
}

/// Whether a value is an address.
pub fn is_address(value: &Value) -> bool
    ensures { result ≡ is_address value.now }
{
    matches!(value, Value::Addr(..) | Value::At(_))
}

/// Whether the flags that the upper three bits of a condition ask about are known.
pub fn can_ask(which: u8, flags: &KnownFlags) -> bool
    ensures { result ≡ can_ask which flags.now }
{
    match which {
        0 => flags.z.is_some(),
        1 => flags.c.is_some(),
        2 => flags.n.is_some(),
        3 => flags.v.is_some(),
        4 => flags.c.is_some() && flags.z.is_some(),
        5 => flags.n.is_some() && flags.v.is_some(),
        6 => flags.n.is_some() && flags.v.is_some() && flags.z.is_some(),
        _ => true,
    }
}

/// The flags with any truth for what is unknown.
pub fn guessed(flags: &KnownFlags) -> Flags
    ensures { result ≡ guessed flags.now }
{
    Flags {
        n: flags.n.unwrap_or(false),
        z: flags.z.unwrap_or(false),
        c: flags.c.unwrap_or(false),
        v: flags.v.unwrap_or(false),
    }
}
