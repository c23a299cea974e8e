//! The expressions of an interval: old ones move with their bytes, inserted words bring theirs.

ghost use Rattle.std.specs.Prelude.{◌≡◌, ◌<◌, ◌+◌, ◌*◌, ◌^◌, ◌++◌, length, map, IfOk, OnOk};
ghost use Rattle.std.specs.List.{flat_map};
ghost use Rattle.block_parts.specs.Words.{patched_words};
ghost use Rattle.new_intervals.specs.Bringing.{brought_values};
ghost use Rattle.new_intervals.specs.Inserting.{brought_by, values_in};
ghost use Rattle.new_intervals.specs.Moving.{IsMoves};
ghost use Rattle.new_intervals.specs.Placed.{placed_all, placed_of, AreRoomy, IsRoomy};
ghost use Rattle.rewrite.specs.Exprs.{by_offset, moved_expr};

use crate::inserts::Inserts;
use crate::moves::Moves;
use crate::spots::Spot;
use crate::values::push_origin;
use block_parts::PatchedWord;
use gr_base::Seq;
use gt_model::{Expr, ExprValue};
use std::alloc::{AllocError, Global};
use sym_expr::{CodeBlock, Piece};
use taken_ids::patched_words;

/// Adds old expressions at the new offsets of their bytes.
fn push_moved(
    alloc: Global,
    out: &mut Vec<Expr>,
    moves: &Moves<'_>,
    exprs: &[Expr],
) -> Result<(), AllocError>
    requires { IsMoves moves.now }
    ensures { OnOk result (out.new.items ≡ out.old.items ++ map (moved_expr moves.now.stretch.now) exprs.now) }
{
    for expr in exprs {
        let flags = Seq::from_slice(alloc, expr.flags.as_slice())?;
        out.push(Expr {
            at: moves.new_offset(expr.at),
            value: expr.value,
            flags,
        })?;
    }
    Ok(())
}

/// Adds what words bring that stand one behind the other from an offset on.
fn push_words(
    alloc: Global,
    out: &mut Vec<Expr>,
    values: &[Option<ExprValue>],
    at: u64,
    words: &[PatchedWord],
) -> Result<(), AllocError>
    requires { at + 4 * length words.now < 2 ^ 63 }
    ensures { OnOk result (out.new.items ≡ out.old.items ++ brought_values values.now at words.now) }
{
    let mut offset = at;
    for word in words {
        push_origin(alloc, out, values, offset, word.origin)?;
        offset += 4;
    }
    Ok(())
}

/// Adds what the words of a code block bring that stands at an offset.
fn push_code(
    alloc: Global,
    out: &mut Vec<Expr>,
    inserts: &Inserts<'_>,
    at: u64,
    block: &CodeBlock,
) -> Result<(), AllocError>
    requires { at + 4 * length (patched_words block.now) < 2 ^ 63 }
    ensures { OnOk result (out.new.items ≡ out.old.items ++ brought_values (values_in inserts.now block.now.id) at (patched_words block.now)) }
{
    let words = patched_words(alloc, block)?;
    let values = inserts.values_in(&block.id);
    push_words(alloc, out, values, at, words.as_slice())?;
    Ok(())
}

/// Adds what the words of a piece bring.
fn push_brought(
    alloc: Global,
    out: &mut Vec<Expr>,
    inserts: &Inserts<'_>,
    spot: &Spot<'_>,
) -> Result<(), AllocError>
    requires { IsRoomy (placed_of spot.now) }
    ensures { OnOk result (out.new.items ≡ out.old.items ++ brought_by inserts.now (placed_of spot.now)) }
{
    match spot.piece {
        Piece::Code(block) => push_code(alloc, out, inserts, spot.at, block),
        Piece::Data(_) | Piece::Gap(_) => Ok(()),
    }
}

/// Adds what the words of pieces bring.
fn push_all_brought(
    alloc: Global,
    out: &mut Vec<Expr>,
    inserts: &Inserts<'_>,
    spots: &[Spot<'_>],
) -> Result<(), AllocError>
    requires { AreRoomy (placed_all spots.now) }
    ensures { OnOk result (out.new.items ≡ out.old.items ++ flat_map (brought_by inserts.now) (placed_all spots.now)) }
{
    for spot in spots {
        push_brought(alloc, out, inserts, spot)?;
    }
    Ok(())
}

/// The old expressions and those that inserted words bring, by their offsets.
pub(crate) fn new_exprs(
    alloc: Global,
    inserts: &Inserts<'_>,
    moves: &Moves<'_>,
    spots: &[Spot<'_>],
    exprs: &[Expr],
) -> Result<Seq<Expr>, AllocError>
    requires moves { IsMoves moves.now }
    requires roomy { AreRoomy (placed_all spots.now) }
    ensures { IfOk result (λ made. made ≡ by_offset (map (moved_expr moves.now.stretch.now) exprs.now ++ flat_map (brought_by inserts.now) (placed_all spots.now))) }
{
    let mut out = Vec::new(alloc);
    push_moved(alloc, &mut out, moves, exprs)?;
    push_all_brought(alloc, &mut out, inserts, spots)?;
    out.sort_by_key(|expr| expr.at)?;
    Ok(Seq::from_vec(out))
}
