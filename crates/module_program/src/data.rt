//! Data blocks.

ghost use Rattle.std.specs.Prelude.{◌≡◌, filter, IfOk};
ghost use Rattle.std.specs.List.{filter_map};
ghost use Rattle.gt_model.specs.Ordered.{ordered_exprs};
ghost use Rattle.module_program.specs.Between.{is_between};
ghost use Rattle.module_program.specs.Knowing.{Knows};
ghost use Rattle.sym_expr.specs.Modules.{end_of};
ghost use Rattle.sym_expr.specs.Program.{data_block, filling, filling_at};

use crate::bytes::bytes_at;
use crate::context::Context;
use crate::expressions::between;
use crate::forms::{difference_in, form_of};
use crate::order::{end_of, id_of, size_of};
use gr_base::Seq;
use gt_model::{Block, Expr, ExprValue, Interval};
use std::alloc::{AllocError, Global};
use sym_expr::{DataBlock, Filling};

/// What stands for an expression that has so many bytes.
fn filling(context: &Context<'_>, size: u64, value: ExprValue) -> Option<Filling>
    requires { Knows context.now }
    ensures { result ≡ filling context.now.module context.now.patches.now size value }
{
    match value {
        ExprValue::AddrConst {
            offset,
            symbol: Some(symbol),
        } => Some(Filling::Pointer(context.old_target(&symbol, offset))),
        ExprValue::AddrAddr {
            scale,
            offset,
            first: Some(first),
            second: Some(second),
        } => match form_of(size, scale) {
            Some(form) => Some(difference_in(
                context.old_target(&first, offset),
                context.old_target(&second, 0),
                form,
            )),
            None => None,
        },
        _ => None,
    }
}

/// The same with its offset in the block.
fn filling_at(
    context: &Context<'_>,
    interval: &Interval,
    block: &Block,
    expr: &Expr,
) -> Option<(u64, Filling)>
    requires { Knows context.now }
    ensures { result ≡ filling_at context.now.module context.now.tables context.now.patches.now interval.now block.now expr.now }
{
    let size = context.tables.size_at(&interval.uuid, expr.at);
    match filling(context, size, expr.value) {
        Some(filling) => Some((expr.at.saturating_sub(block.offset), filling)),
        None => None,
    }
}

/// What stands for expressions of a block.
fn fillings(
    alloc: Global,
    context: &Context<'_>,
    interval: &Interval,
    block: &Block,
    exprs: &[Expr],
) -> Result<Vec<(u64, Filling)>, AllocError>
    requires { Knows context.now }
    ensures { IfOk result (λ fillings. fillings.items ≡ filter_map (filling_at context.now.module context.now.tables context.now.patches.now interval.now block.now) exprs.now) }
{
    exprs
        .iter()
        .filter_map(|expr| filling_at(context, interval, block, expr))
        .collect(alloc)
}

pub(crate) fn data_block(
    alloc: Global,
    context: &Context<'_>,
    interval: &Interval,
    block: &Block,
) -> Result<DataBlock, AllocError>
    requires known { Knows context.now }
    requires ordered { ordered_exprs interval.now.exprs }
    ensures { IfOk result (λ b. b ≡ data_block context.now.module context.now.tables context.now.patches.now interval.now block.now) }
{
    let id = id_of(block);
    let exprs = between(
        interval.exprs.as_slice(),
        u128::from(block.offset),
        end_of(block),
    );
    let bytes = bytes_at(alloc, interval, block.offset, size_of(block))?;
    let fillings = fillings(alloc, context, interval, block, exprs)?;
    Ok(DataBlock {
        id,
        offset: block.offset,
        bytes,
        fillings: Seq::from_vec(fillings),
        alignment: context.tables.alignment(&id),
    })
}
