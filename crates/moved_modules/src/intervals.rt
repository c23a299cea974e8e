//! The intervals in which words are inserted, and where their bytes go.

ghost use Rattle.std.specs.Prelude.{◌≡◌, ◌<◌, ◌^◌, ◌++◌, ◌∷◌, [], filter, map, IfOk, OnOk};
ghost use Rattle.std.specs.List.{AllByRecursion};
ghost use Rattle.block_parts.specs.Words.{patched_words};
ghost use Rattle.moved_modules.specs.Moved.{bytes_at, is_grown, is_patched_piece, moved_interval, origin_pieces, word_pieces};
ghost use Rattle.moved_modules.specs.Near.{IsNear};
ghost use Rattle.rewrite.specs.Offsets.{old_size};
ghost use Rattle.sym_expr.specs.declared.program.Stretch.{Stretch as StretchOf};
ghost use Rattle.sym_expr.specs.Placing.{stretch_size};
ghost use Rattle.sym_expr.specs.Points.{code_size};

use crate::moved::{MovedInterval, Piece};
use block_parts::{Origin, PatchedWord};
use gr_base::Seq;
use layout_plan::{new_size, placed_at};
use std::alloc::{AllocError, Global};
use sym_expr::{CodeBlock, Piece as ProgramPiece, Program, Stretch};
use taken_ids::patched_words;

/// Where a word goes of a code block that stood at an old offset, if it is the block's own.
fn push_word(
    pieces: &mut Vec<Piece>,
    from: u64,
    to: u64,
    word: &PatchedWord,
) -> Result<(), AllocError>
    requires from { from < 2 ^ 62 }
    requires near { IsNear (2 ^ 62) word.now }
    ensures { OnOk result (pieces.new.items ≡ pieces.old.items ++ origin_pieces from to word.now.origin) }
{
    match word.origin {
        Origin::Own(offset) => {
            let old = from + offset;
            pieces.push(Piece {
                from: old,
                len: 4,
                to,
            })?;
            Ok(())
        }
        Origin::Inserted(_) => Ok(()),
    }
}

/// Where the own words go of a code block that stood at an old offset and stands at a new one.
fn push_words(
    pieces: &mut Vec<Piece>,
    from: u64,
    to: u64,
    words: &[PatchedWord],
) -> Result<(), AllocError>
    requires from { from < 2 ^ 62 }
    requires to { to < 2 ^ 62 }
    requires near { AllByRecursion (IsNear (2 ^ 62)) words.now }
    ensures { OnOk result (pieces.new.items ≡ pieces.old.items ++ word_pieces from to words.now) }
{
    let mut at = to;
    for word in words {
        push_word(pieces, from, at, word)?;
        at += 4;
    }
    Ok(())
}

fn push_code(
    alloc: Global,
    pieces: &mut Vec<Piece>,
    from: u64,
    to: u64,
    block: &CodeBlock,
) -> Result<(), AllocError>
    requires from { from < 2 ^ 62 }
    requires to { to < 2 ^ 62 }
    requires small { code_size block.now < 2 ^ 62 }
    ensures { OnOk result (pieces.new.items ≡ pieces.old.items ++ word_pieces from to (patched_words block.now)) }
{
    let words = patched_words(alloc, block)?;
    let listed = words.as_slice();
    push_words(pieces, from, to, listed)?;
    Ok(())
}

/// Where the bytes of a piece go that stood at an old offset and stands at a new one.
fn push_piece(
    alloc: Global,
    pieces: &mut Vec<Piece>,
    from: u64,
    to: u64,
    piece: &ProgramPiece,
) -> Result<(), AllocError>
    requires from { from < 2 ^ 62 }
    requires to { to < 2 ^ 62 }
    requires small { old_size piece.now < 2 ^ 62 }
    ensures { OnOk result (pieces.new.items ≡ pieces.old.items ++ bytes_at from to piece.now) }
{
    let len = match piece {
        ProgramPiece::Code(block) => return push_code(alloc, pieces, from, to, block),
        ProgramPiece::Data(block) => block.bytes.len() as u64,
        ProgramPiece::Gap(bytes) => bytes.len() as u64,
    };
    pieces.push(Piece { from, len, to })?;
    Ok(())
}

/// The size of a piece before anything is inserted.
fn old_size(piece: &ProgramPiece) -> u64
    requires { old_size piece.now < 2 ^ 64 }
    ensures { result ≡ old_size piece.now }
{
    match piece {
        ProgramPiece::Code(block) => 4 * block.own.len() as u64,
        ProgramPiece::Data(block) => block.bytes.len() as u64,
        ProgramPiece::Gap(bytes) => bytes.len() as u64,
    }
}

fn moved_interval(alloc: Global, stretch: &Stretch) -> Result<MovedInterval, AllocError>
    requires { stretch_size stretch.now < 2 ^ 62 }
    ensures { IfOk result (λ moved. moved ≡ moved_interval stretch.now) }
{
    let mut pieces = Vec::new(alloc);
    let mut from = 0;
    let mut end = 0;
    for piece in stretch.pieces.as_slice() {
        let to = placed_at(end, piece);
        push_piece(alloc, &mut pieces, from, to, piece)?;
        from += old_size(piece);
        end = to + new_size(piece);
    }
    Ok(MovedInterval {
        interval: stretch.id,
        old_size: from,
        new_size: end,
        pieces: Seq::from_vec(pieces),
    })
}

fn is_patched_piece(piece: &ProgramPiece) -> bool
    ensures { result ≡ is_patched_piece piece.now }
{
    match piece {
        ProgramPiece::Code(block) => !block.inserted.is_empty(),
        ProgramPiece::Data(_) | ProgramPiece::Gap(_) => false,
    }
}

/// Words are inserted in the interval.
fn is_grown(stretch: &Stretch) -> bool
    ensures { result ≡ is_grown stretch.now }
{
    stretch
        .pieces
        .as_slice()
        .iter()
        .any(|piece| is_patched_piece(piece))
}

/// The interval behind those before, if words are inserted in it.
fn push_interval(
    alloc: Global,
    intervals: &mut Vec<MovedInterval>,
    stretch: &Stretch,
) -> Result<(), AllocError>
    requires { stretch_size stretch.now < 2 ^ 62 }
    ensures { OnOk result (intervals.new.items ≡ intervals.old.items ++ map moved_interval (filter is_grown (stretch.now ∷ []))) }
{
    if !is_grown(stretch) {
        return Ok(());
    }
    let made = moved_interval(alloc, stretch)?;
    intervals.push(made)?;
    Ok(())
}

/// The intervals of a program in which words are inserted, in order.
pub(crate) fn moved_intervals(
    alloc: Global,
    program: &Program,
) -> Result<Seq<MovedInterval>, AllocError>
    requires { AllByRecursion (λ (s : StretchOf). stretch_size s < 2 ^ 62) program.now.stretches }
    ensures { IfOk result (λ intervals. intervals ≡ map moved_interval (filter is_grown program.now.stretches)) }
{
    let mut intervals = Vec::new(alloc);
    for stretch in program.stretches.as_slice() {
        push_interval(alloc, &mut intervals, stretch)?;
    }
    Ok(Seq::from_vec(intervals))
}
