//! The expressions of an interval by their offsets.

ghost use Rattle.std.specs.Prelude.{◌≡◌, ℕ, nat_eq, map, IfOk};
ghost use Rattle.indexmap.specs.IndexMap.{get};
ghost use Rattle.asm_print.specs.Marking.{expr_entry};
ghost use Rattle.asm_print.specs.Names.{value_at};

use crate::keyed::index_of;
use gt_model::{Expr, ExprValue};
use indexmap::IndexMap;
use std::alloc::{AllocError, Global};

fn entries(alloc: Global, exprs: &[Expr]) -> Result<Vec<(u128, ExprValue)>, AllocError>
    ensures { IfOk result (λ made. made.items ≡ map expr_entry exprs.now) }
{
    let mut entries = Vec::new(alloc);
    for expr in exprs {
        entries.push((u128::from(expr.at), expr.value))?;
    }
    Ok(entries)
}

/// What each expression stands for, by its offset.
pub(crate) fn values_by_offset(
    alloc: Global,
    exprs: &[Expr],
) -> Result<IndexMap<u128, ExprValue>, AllocError>
    ensures { IfOk result (λ index. (at : ℕ) → get nat_eq index at ≡ value_at nat_eq at (map expr_entry exprs.now)) }
{
    let entries = entries(alloc, exprs)?;
    index_of(alloc, entries.as_slice())
}
