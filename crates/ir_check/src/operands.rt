//! Where an expression may stand.

ghost use Rattle.std.specs.Prelude.{◌≡◌, [], slice_index, false};
ghost use Rattle.std.specs.List.{prefix_len};
ghost use Rattle.std.specs.Option.{option_map_or};
ghost use Rattle.sym_expr.specs.Expressions.{fits_code, has_data_form, is_sum, takes_offset};
ghost use Rattle.sym_expr.specs.Modules.{word_of};
ghost use Rattle.sym_expr.specs.Tables.{expr_size};
ghost use Rattle.ir_check.specs.Along.{after, covering, ends_by, fits_along, fits_data_along, interval_with, meets_next};

use crate::order::{end_of, is_code};
use crate::targets::form_of;
use a64_inst::operand_kind;
use aux_tables::ProgramTables;
use gt_model::{Block, Expr, ExprValue};
use node_arena::IntervalNode;
use sym_expr::DifferenceForm;
use uuid::Uuid;

/// A byte of an interval: of its contents, and 0 behind them.
fn byte_at(contents: &[u8], at: u128) -> u8
    ensures { result ≡ slice_index contents.now at }
{
    if at < contents.len() as u128 {
        contents[at as usize]
    } else {
        0
    }
}

/// The word at an offset of an interval.
pub(crate) fn word_of(node: &IntervalNode, at: u64) -> u32
    ensures { result ≡ word_of (interval_with node.now []) at }
{
    let contents = node.contents.as_slice();
    let at = u128::from(at);
    u32::from_le_bytes([
        byte_at(contents, at),
        byte_at(contents, at + 1),
        byte_at(contents, at + 2),
        byte_at(contents, at + 3),
    ])
}

fn is_sum(value: ExprValue) -> bool
    ensures { result ≡ is_sum value }
{
    matches!(
        value,
        ExprValue::AddrConst {
            symbol: Some(_),
            ..
        }
    )
}

fn fits_code(node: &IntervalNode, expr: &Expr) -> bool
    ensures { result ≡ fits_code (interval_with node.now []) expr.now }
{
    is_sum(expr.value) && expr.at % 4 == 0 && operand_kind(word_of(node, expr.at)).is_some()
}

fn takes_offset(offset: i64, form: DifferenceForm) -> bool
    ensures { result ≡ takes_offset offset form }
{
    !form.is_entry || offset == 0
}

/// Whether an expression has a form of data of so many bytes.
fn has_data_form(size: u64, value: ExprValue) -> bool
    ensures { result ≡ has_data_form size value }
{
    match value {
        ExprValue::Nothing => false,
        ExprValue::AddrConst { symbol, .. } => symbol.is_some() && size == 8,
        ExprValue::AddrAddr {
            scale,
            offset,
            first,
            second,
        } => {
            first.is_some()
                && second.is_some()
                && match form_of(size, scale) {
                    Some(form) => takes_offset(offset, form),
                    None => false,
                }
        }
    }
}

/// Whether an expression among those behind has a byte before the end.
fn meets_next(tables: &ProgramTables, interval: &Uuid, end: u128, rest: &[Expr]) -> bool
    ensures { result ≡ meets_next (expr_size tables.now interval.now) end rest.now }
{
    rest.iter()
        .take_while(|other| u128::from(other.at) < end)
        .any(|other| tables.size_at(interval, other.at) > 0)
}

fn fits_data(
    tables: &ProgramTables,
    node: &IntervalNode,
    expr: &Expr,
    rest: &[Expr],
    block: &Block,
) -> bool
    ensures { result ≡ fits_data_along (expr_size tables.now node.now.uuid) expr.now rest.now block.now }
{
    let size = tables.size_at(&node.uuid, expr.at);
    let end = u128::from(expr.at) + u128::from(size);
    has_data_form(size, expr.value)
        && end <= end_of(block)
        && !meets_next(tables, &node.uuid, end, rest)
}

/// Whether the expression, before the rest, may stand in its block.
pub(crate) fn is_operand(
    tables: &ProgramTables,
    node: &IntervalNode,
    expr: &Expr,
    rest: &[Expr],
    home: &Option<Block>,
) -> bool
    ensures { result ≡ option_map_or (fits_along (expr_size tables.now node.now.uuid) (interval_with node.now []) expr.now rest.now) home.now false }
{
    match home {
        None => false,
        Some(block) if is_code(block) => fits_code(node, expr),
        Some(block) => fits_data(tables, node, expr, rest, block),
    }
}

fn ends_by(block: &Block, at: u64) -> bool
    ensures { result ≡ ends_by at block.now }
{
    end_of(block) <= u128::from(at)
}

fn count_ended(blocks: &[Block], at: u64) -> usize
    ensures { result ≡ prefix_len (ends_by at) blocks.now }
{
    blocks.iter().take_while(|block| ends_by(block, at)).count()
}

/// The blocks, in order, from the first on that ends behind an offset.
pub(crate) fn after(blocks: &[Block], at: u64) -> &[Block]
    ensures { result.now ≡ after at blocks.now }
{
    blocks.split_at(count_ended(blocks, at)).1
}

/// The first of them, where it begins no later.
pub(crate) fn covering(blocks: &[Block], at: u64) -> Option<Block>
    ensures { result ≡ covering at blocks.now }
{
    match blocks {
        [first, ..] if first.offset <= at => Some(*first),
        _ => None,
    }
}
