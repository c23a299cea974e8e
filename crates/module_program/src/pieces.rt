//! Intervals in pieces: blocks in order, and the bytes between them.

ghost use Rattle.std.specs.Prelude.{◌≡◌, ◌++◌, ◌/◌, [], map, IfOk, OnOk};
ghost use Rattle.gt_model.specs.Ordered.{ordered_exprs, ordered_section};
ghost use Rattle.module_program.specs.Knowing.{Knows};
ghost use Rattle.sym_expr.specs.Modules.{in_order};
ghost use Rattle.sym_expr.specs.Program.{code_block, gap, piece, pieces, section_stretches, stretch};

use crate::bytes::bytes_at;
use crate::context::Context;
use crate::data::data_block;
use crate::order::{end_of, id_of, in_order, is_code, size_of};
use crate::words::own_words;
use gr_base::Seq;
use gt_model::{Block, Interval, Section};
use std::alloc::{AllocError, Global};
use sym_expr::{CodeBlock, Piece, Stretch};

fn code_block(
    alloc: Global,
    context: &Context<'_>,
    interval: &Interval,
    block: &Block,
) -> Result<CodeBlock, AllocError>
    requires known { Knows context.now }
    requires ordered { ordered_exprs interval.now.exprs }
    ensures { IfOk result (λ b. b ≡ code_block context.now.module context.now.patches.now interval.now block.now) }
{
    let id = id_of(block);
    let count = size_of(block) / 4;
    let own = own_words(alloc, context, interval, block.offset, count)?;
    let inserted = context.inserted_words(alloc, &id)?;
    Ok(CodeBlock {
        id,
        offset: block.offset,
        own,
        inserted,
    })
}

fn piece(
    alloc: Global,
    context: &Context<'_>,
    interval: &Interval,
    block: &Block,
) -> Result<Piece, AllocError>
    requires known { Knows context.now }
    requires ordered { ordered_exprs interval.now.exprs }
    ensures { IfOk result (λ made. made ≡ piece context.now.module context.now.tables context.now.patches.now interval.now block.now) }
{
    if is_code(block) {
        let code = code_block(alloc, context, interval, block)?;
        Ok(Piece::Code(code))
    } else {
        let data = data_block(alloc, context, interval, block)?;
        Ok(Piece::Data(data))
    }
}

/// The bytes from one offset up to another, if there are any, behind the pieces before them.
fn push_gap(
    alloc: Global,
    pieces: &mut Vec<Piece>,
    interval: &Interval,
    from: u128,
    to: u64,
) -> Result<(), AllocError>
    ensures { OnOk result (pieces.new.items ≡ pieces.old.items ++ gap interval.now from to) }
{
    let size = u128::from(to).saturating_sub(from);
    if size != 0 {
        let bytes = bytes_at(alloc, interval, from as u64, size as u64)?;
        pieces.push(Piece::Gap(bytes))?;
    }
    Ok(())
}

fn pieces(
    alloc: Global,
    context: &Context<'_>,
    interval: &Interval,
    blocks: &[Block],
) -> Result<Seq<Piece>, AllocError>
    requires known { Knows context.now }
    requires ordered { ordered_exprs interval.now.exprs }
    ensures { IfOk result (λ made. made ≡ pieces context.now.module context.now.tables context.now.patches.now interval.now 0 blocks.now) }
{
    let mut pieces = Vec::new(alloc);
    let mut at = 0u128;
    for block in blocks {
        push_gap(alloc, &mut pieces, interval, at, block.offset)?;
        let made = piece(alloc, context, interval, block)?;
        pieces.push(made)?;
        at = end_of(block);
    }
    push_gap(alloc, &mut pieces, interval, at, interval.size)?;
    Ok(Seq::from_vec(pieces))
}

fn stretch(alloc: Global, context: &Context<'_>, interval: &Interval) -> Result<Stretch, AllocError>
    requires known { Knows context.now }
    requires ordered { ordered_exprs interval.now.exprs }
    ensures { IfOk result (λ made. made ≡ stretch context.now.module context.now.tables context.now.patches.now interval.now) }
{
    let blocks = in_order(alloc, interval.blocks.as_slice())?;
    let pieces = pieces(alloc, context, interval, blocks.as_slice())?;
    let address = if interval.has_address {
        Some(interval.address)
    } else {
        None
    };
    Ok(Stretch {
        id: interval.uuid,
        address,
        pieces,
    })
}

/// The intervals of a section behind those before it.
pub(crate) fn add_stretches(
    alloc: Global,
    stretches: &mut Vec<Stretch>,
    context: &Context<'_>,
    section: &Section,
) -> Result<(), AllocError>
    requires known { Knows context.now }
    requires ordered { ordered_section section.now }
    ensures { OnOk result (stretches.new.items ≡ stretches.old.items ++ map (stretch context.now.module context.now.tables context.now.patches.now) section.now.intervals) }
{
    for interval in section.intervals.as_slice() {
        let made = stretch(alloc, context, interval)?;
        stretches.push(made)?;
    }
    Ok(())
}
