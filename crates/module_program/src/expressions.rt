//! The expressions of an interval, which ascend by their offset.

ghost use Rattle.std.specs.Prelude.{◌≡◌, filter, find, option_copied, ◌<◌, ◌^◌};
ghost use Rattle.gt_model.specs.declared.exprs.Expr.{Expr};
ghost use Rattle.gt_model.specs.Ordered.{ordered_exprs};
ghost use Rattle.module_program.specs.Between.{is_between, is_at};

use gt_model::Expr;

/// Those from one offset up to another.
pub(crate) fn between(exprs: &[Expr], from: u128, to: u128) -> &[Expr]
    requires { ordered_exprs exprs.now }
    ensures { result.now ≡ filter (is_between from to) exprs.now }
{
    let start = exprs.partition_point(|expr| u128::from(expr.at) < from);
    let rest = &exprs[start..];
    let count = rest.partition_point(|expr| u128::from(expr.at) < to);
    &rest[..count]
}

/// The one at an offset.
pub(crate) fn expression_at(exprs: &[Expr], at: u128) -> Option<&Expr>
    requires ordered { ordered_exprs exprs.now }
    requires bound { at < 2 ^ 100 }
    ensures { option_copied result ≡ find (is_at at) exprs.now }
{
    between(exprs, at, at + 1).first()
}
