//! What a symbol names, and an offset from there.

ghost use Rattle.std.specs.Prelude.{◌≡◌};
ghost use Rattle.module_program.specs.Naming.{shifted};
ghost use Rattle.sym_expr.specs.Targets.{plus_offset};

use sym_expr::Target;

/// A number plus an offset, modulo 2^64.
fn plus_offset(number: u64, offset: i64) -> u64
    ensures { result ≡ plus_offset number offset }
{
    let sum = i128::from(number) + i128::from(offset);
    sum.rem_euclid(1 << 64).unsigned_abs() as u64
}

/// A target, and an offset from it, which is not looked at where the target is code.
pub(crate) fn shifted(offset: i64, target: Target) -> Target
    ensures { result ≡ shifted offset target }
{
    match target {
        Target::Number(number) => Target::Number(plus_offset(number, offset)),
        Target::Address(block, at) => Target::Address(block, plus_offset(at, offset)),
        Target::Code(_) | Target::Undefined(_) => target,
    }
}
