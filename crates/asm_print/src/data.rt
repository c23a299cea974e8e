//! What stands for expressions of data, and the bytes between them.

ghost use Rattle.std.specs.Prelude.{◌≡◌, ◌++◌, ◌<◌, ◌^◌, take, drop, IfOk, OnOk};
ghost use Rattle.sym_expr.specs.Images.{filling_size};
ghost use Rattle.asm_print.specs.Items.{data_lines, difference_text, directive, filling_line, filling_text, scaled, sum_text};
ghost use Rattle.asm_print.specs.Marking.{IsHere, Knows};

use crate::context::{Context, Here};
use crate::lines::{push_item, push_run};
use asm_spelling::offset_text;
use gr_base::Bytes;
use gt_model::ExprValue;
use std::alloc::{AllocError, Global};
use sym_expr::Filling;

fn sum_text(alloc: Global, context: &Context, value: ExprValue) -> Result<Bytes, AllocError>
    requires { Knows context.now }
    ensures { IfOk result (λ text. text ≡ sum_text context.now.module value) }
{
    match value {
        ExprValue::AddrConst {
            offset,
            symbol: Some(id),
        } => {
            let mut text = Bytes::from_slice(alloc, context.label_of(&id))?;
            let far = offset_text(alloc, offset)?;
            text.extend_from_slice(far.as_bytes())?;
            Ok(text)
        }
        _ => Ok(Bytes::new(alloc)),
    }
}

fn difference_text(alloc: Global, context: &Context, value: ExprValue) -> Result<Bytes, AllocError>
    requires { Knows context.now }
    ensures { IfOk result (λ text. text ≡ difference_text context.now.module value) }
{
    match value {
        ExprValue::AddrAddr {
            offset,
            first: Some(first),
            second: Some(second),
            ..
        } => {
            let mut text = Bytes::from_slice(alloc, context.label_of(&first))?;
            text.extend_from_slice(b"-")?;
            text.extend_from_slice(context.label_of(&second))?;
            let far = offset_text(alloc, offset)?;
            text.extend_from_slice(far.as_bytes())?;
            Ok(text)
        }
        _ => Ok(Bytes::new(alloc)),
    }
}

/// The directive of a number of bytes.
fn directive(size: u8) -> &'static [u8]
    ensures { result.now ≡ directive size }
{
    match size {
        1 => b".byte ",
        2 => b".hword ",
        4 => b".word ",
        _ => b".quad ",
    }
}

/// A difference, by the scale by which it is divided.
fn scaled(alloc: Global, scale: u8, text: Bytes) -> Result<Bytes, AllocError>
    ensures { IfOk result (λ made. made ≡ scaled scale text) }
{
    if scale == 1 {
        return Ok(text);
    }
    let mut made = Bytes::from_slice(alloc, b"(")?;
    made.extend_from_slice(text.as_slice())?;
    let end = format!(in alloc; ")/{scale}")?;
    made.extend_from_slice(end.as_bytes())?;
    Ok(made)
}

/// A directive and its operand.
fn with_directive(alloc: Global, size: u8, operand: &Bytes) -> Result<Bytes, AllocError>
    ensures { IfOk result (λ text. text ≡ directive size ++ operand.now) }
{
    let mut text = Bytes::from_slice(alloc, directive(size))?;
    text.extend_from_slice(operand.as_slice())?;
    Ok(text)
}

fn filling_text(
    alloc: Global,
    context: &Context,
    filling: Filling,
    value: ExprValue,
) -> Result<Bytes, AllocError>
    requires { Knows context.now }
    ensures { IfOk result (λ text. text ≡ filling_text context.now.module filling value) }
{
    match filling {
        Filling::Pointer(_) => {
            let sum = sum_text(alloc, context, value)?;
            with_directive(alloc, 8, &sum)
        }
        Filling::Difference(size, _, _) => {
            let difference = difference_text(alloc, context, value)?;
            with_directive(alloc, size, &difference)
        }
        Filling::Entry(size, scale, _, _) => {
            let difference = difference_text(alloc, context, value)?;
            let scaled = scaled(alloc, scale, difference)?;
            with_directive(alloc, size, &scaled)
        }
    }
}

/// What stands for the expression at an offset.
fn push_filling(
    alloc: Global,
    out: &mut Bytes,
    here: &Here<'_>,
    at: u128,
    filling: Filling,
) -> Result<(), AllocError>
    requires { IsHere here.now }
    ensures { OnOk result (out.new ≡ out.old ++ filling_line here.now.context.now.module here.now.interval.now at filling) }
{
    out.extend_from_slice(here.marks(at))?;
    let text = filling_text(alloc, here.context, filling, here.value_at(at))?;
    push_item(out, text.as_slice())
}

/// So many bytes from one on, as far as they are there.
fn part(bytes: &[u8], from: u128, count: u128) -> &[u8]
    ensures { result.now ≡ take count (drop from bytes.now) }
{
    let start = from.min(bytes.len() as u128) as usize;
    let rest = &bytes[start..];
    let end = count.min(rest.len() as u128) as usize;
    &rest[..end]
}

/// The bytes of a filling.
fn size_of(filling: Filling) -> u8
    ensures { result ≡ filling_size filling }
{
    match filling {
        Filling::Pointer(_) => 8,
        Filling::Difference(size, _, _) => size,
        Filling::Entry(size, _, _, _) => size,
    }
}

/// Bytes of data at an offset, cut where there are expressions.
pub(crate) fn push_data(
    alloc: Global,
    out: &mut Bytes,
    here: &Here<'_>,
    at: u128,
    bytes: &[u8],
    fillings: &[(u64, Filling)],
) -> Result<(), AllocError>
    requires known { IsHere here.now }
    requires bound { at < 2 ^ 100 }
    ensures { OnOk result (out.new ≡ out.old ++ data_lines here.now.context.now.module here.now.interval.now at bytes.now 0 fillings.now) }
{
    let mut from = 0u128;
    for (offset, filling) in fillings {
        let start = u128::from(*offset);
        let before = part(bytes, from, start.saturating_sub(from));
        push_run(alloc, out, here, at + from, before)?;
        push_filling(alloc, out, here, at + start, *filling)?;
        from = start + u128::from(size_of(*filling));
    }
    let rest = part(bytes, from, bytes.len() as u128);
    push_run(alloc, out, here, at + from, rest)
}
