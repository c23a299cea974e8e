//! Whole intervals.

ghost use Rattle.std.specs.Prelude.{◌≡◌, IfOk};
ghost use Rattle.std.specs.List.{list_any};
ghost use Rattle.new_intervals.specs.Inserting.{is_grown};
ghost use Rattle.new_intervals.specs.Knowing.{IsOfProgram, Knows};
ghost use Rattle.new_intervals.specs.Moving.{IsTight};
ghost use Rattle.new_intervals.specs.Whole.{stretched_by};
ghost use Rattle.rewrite.specs.Rewritten.{new_interval};
ghost use Rattle.sym_expr.specs.Modules.{id_of};
ghost use Rattle.sym_expr.specs.Program.{stretch as stretch_of};
ghost use Rattle.sym_expr.specs.Tables.{Tables};

use crate::blocks::new_blocks;
use crate::contents::new_contents;
use crate::exprs::new_exprs;
use crate::inserts::Inserts;
use crate::moves::Moves;
use crate::spots::{Laid, index_of};
use gt_model::{Block, Body, CopyIn, Interval};
use rewrite::laws::words_are_counted;
use std::alloc::{AllocError, Global};
use sym_expr::Stretch;
use uuid::Uuid;

/// The identifier of a block, nil for one that has none.
fn id_of(block: &Block) -> Uuid
    ensures { result ≡ id_of block.now }
{
    match block.body {
        Body::Bare => Uuid::nil(),
        Body::Code { uuid, .. } => uuid,
        Body::Data { uuid, .. } => uuid,
    }
}

/// Words are inserted in the block.
fn is_grown(inserts: &Inserts<'_>, block: &Block) -> bool
    ensures { result ≡ is_grown inserts.now block.now }
{
    let id = id_of(block);
    inserts.values_in(&id).len() != 0
}

/// Words are inserted in blocks of the interval.
fn has_words(inserts: &Inserts<'_>, interval: &Interval) -> bool
    ensures { result ≡ list_any (is_grown inserts.now) interval.now.blocks }
{
    interval
        .blocks
        .as_slice()
        .iter()
        .any(|block| is_grown(inserts, block))
}

/// An interval with new blocks, expressions and bytes.
fn stretched(
    alloc: Global,
    inserts: &Inserts<'_>,
    old: &Interval,
    stretch: &Stretch,
) -> Result<Interval, AllocError>
    requires { IsTight stretch.now }
    ensures { IfOk result (λ made. made ≡ stretched_by inserts.now old.now stretch.now) }
{
    let laid = Laid::new(alloc, stretch)?;
    let spots = laid.spots.as_slice();
    let before = old.blocks.as_slice();
    let olds = old.exprs.as_slice();
    let moves = Moves::new(alloc, stretch, spots, laid.size)?;
    let index = index_of(alloc, spots)?;
    let blocks = new_blocks(alloc, inserts.module, spots, &index, before)?;
    let exprs = new_exprs(alloc, inserts, &moves, spots, olds)?;
    let contents = new_contents(alloc, spots, laid.size)?;
    Ok(Interval {
        uuid: old.uuid,
        blocks,
        exprs,
        has_address: old.has_address,
        address: old.address,
        size: laid.size,
        contents,
    })
}

/// An interval of a loaded section once words are inserted, where this is its part of the program of the module and
/// its patches.
pub fn rewritten_interval(
    alloc: Global,
    inserts: &Inserts<'_>,
    old: &Interval,
    stretch: &Stretch,
) -> Result<Interval, AllocError>
    requires known { Knows inserts.now }
    requires part { IsOfProgram stretch.now }
    ensures { IfOk result (λ made. (t : Tables) → stretch.now ≡ stretch_of inserts.now.module.now t inserts.now.patches.now old.now → made ≡ new_interval inserts.now.module.now t inserts.now.patches.now old.now) }
{
    words_are_counted();
    if !has_words(inserts, old) {
        let copy = old.copy_in(alloc)?;
        return Ok(copy);
    }
    let made = stretched(alloc, inserts, old, stretch)?;
    Ok(made)
}
