//! The pieces of an interval.

ghost use Rattle.std.specs.Prelude.{◌≡◌, ◌++◌, ◌<◌, ◌^◌, IfOk, OnOk};
ghost use Rattle.sym_expr.specs.Placing.{stretch_size};
ghost use Rattle.asm_print.specs.Items.{named_by, piece_lines, word_lines};
ghost use Rattle.asm_print.specs.Marking.{IsHere, Knows};
ghost use Rattle.asm_print.specs.Printed.{body_lines};

use crate::context::{Context, Here};
use crate::data::push_data;
use crate::lines::{push_item, push_run};
use asm_spelling::{Named, word_line};
use gr_base::Bytes;
use gt_model::ExprValue;
use layout_plan::{new_size, placed_at};
use std::alloc::{AllocError, Global};
use sym_expr::{Piece, Stretch, Word};

/// What the operand of a word names.
fn named_by(alloc: Global, context: &Context, value: ExprValue) -> Result<Named, AllocError>
    requires { Knows context.now }
    ensures { IfOk result (λ named. named ≡ named_by context.now.module value) }
{
    match value {
        ExprValue::AddrConst {
            offset,
            symbol: Some(id),
        } => {
            let label = Bytes::from_slice(alloc, context.label_of(&id))?;
            Ok(Named::Label(label, offset))
        }
        _ => Ok(Named::Nothing),
    }
}

/// Words from an offset on.
fn push_words(
    alloc: Global,
    out: &mut Bytes,
    here: &Here<'_>,
    start: u128,
    words: &[Word],
) -> Result<(), AllocError>
    requires known { IsHere here.now }
    requires bound { start < 2 ^ 100 }
    ensures { OnOk result (out.new ≡ out.old ++ word_lines here.now.context.now.module here.now.interval.now start words.now) }
{
    let mut at = start;
    for word in words {
        out.extend_from_slice(here.marks(at))?;
        let named = named_by(alloc, here.context, here.value_at(at))?;
        let line = word_line(alloc, word.word, &named)?;
        push_item(out, line.as_slice())?;
        at += 4;
    }
    Ok(())
}

fn push_piece(
    alloc: Global,
    out: &mut Bytes,
    here: &Here<'_>,
    at: u128,
    piece: &Piece,
) -> Result<(), AllocError>
    requires known { IsHere here.now }
    requires bound { at < 2 ^ 100 }
    ensures { OnOk result (out.new ≡ out.old ++ piece_lines here.now.context.now.module here.now.interval.now at piece.now) }
{
    match piece {
        Piece::Code(block) => push_words(alloc, out, here, at, block.own.as_slice()),
        Piece::Data(block) => {
            let bytes = block.bytes.as_slice();
            push_data(alloc, out, here, at, bytes, block.fillings.as_slice())
        }
        Piece::Gap(bytes) => push_run(alloc, out, here, at, bytes.as_slice()),
    }
}

/// The pieces of an interval, and what stands at its end.
pub(crate) fn push_body(
    alloc: Global,
    out: &mut Bytes,
    here: &Here<'_>,
    stretch: &Stretch,
) -> Result<(), AllocError>
    requires known { IsHere here.now }
    requires bound { stretch_size stretch.now < 2 ^ 62 }
    ensures { OnOk result (out.new ≡ out.old ++ body_lines here.now.context.now.module here.now.interval.now stretch.now) }
{
    let mut end = 0;
    for piece in stretch.pieces.as_slice() {
        let at = placed_at(end, piece);
        push_piece(alloc, out, here, u128::from(at), piece)?;
        end = at + new_size(piece);
    }
    out.extend_from_slice(here.marks(u128::from(end)))
}
