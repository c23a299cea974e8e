//! Blocks at their spots, and the words in them.

ghost use Rattle.std.specs.Prelude.{◌≡◌, ◌≤◌, ◌<◌, ◌+◌, ◌*◌, ◌^◌, length, IsSome};
ghost use Rattle.std.specs.Option.{option_copied, option_and_then};
ghost use Rattle.sym_expr.specs.declared.program.Piece.TheVariants.{Code as CodePiece};
ghost use Rattle.sym_expr.specs.Images.{inserted_below};
ghost use Rattle.sym_expr.specs.Placing.{new_size};
ghost use Rattle.sym_expr.specs.Points.{after_in, code_of, code_size, data_of, ins, is_passed, own_at, word_in};
ghost use Rattle.indexed_program.specs.Kept.{IsByOffset};
ghost use Rattle.indexed_program.specs.Spots.{piece_at};

use crate::inserted::{count_at, count_below, inserted_word};
use crate::spot::Spot;
use sym_expr::{CodeBlock, DataBlock, Piece, Point, Program, Word};

/// The piece at a spot.
fn piece_at(program: &Program, spot: Spot) -> Option<&Piece>
    ensures { option_copied result ≡ piece_at program.now spot }
{
    let stretch = program.stretches.get(spot.stretch)?;
    stretch.pieces.get(spot.piece)
}

/// The code block at a spot.
pub fn code_at(program: &Program, spot: Spot) -> Option<&CodeBlock>
    ensures { option_copied result ≡ option_and_then code_of (piece_at program.now spot) }
{
    match piece_at(program, spot)? {
        Piece::Code(block) => Some(block),
        _ => None,
    }
}

/// The data block at a spot.
pub fn data_at(program: &Program, spot: Spot) -> Option<&DataBlock>
    ensures { option_copied result ≡ option_and_then data_of (piece_at program.now spot) }
{
    match piece_at(program, spot)? {
        Piece::Data(block) => Some(block),
        _ => None,
    }
}

/// A block's own word at an offset.
fn own_at(block: &CodeBlock, offset: u64) -> Option<Word>
    ensures { result ≡ own_at block.now offset }
{
    if offset % 4 == 0 {
        block.own.get((offset / 4) as usize).copied()
    } else {
        None
    }
}

/// The word at a point of a block.
pub fn word_in(block: &CodeBlock, inserted: &[(u64, Word)], at: &Point) -> Option<Word>
    requires { IsByOffset inserted.now block.now.inserted }
    ensures { result ≡ word_in block.now at.now }
{
    match inserted_word(inserted, at.offset, at.j) {
        Some(word) => Some(word),
        None => own_at(block, at.offset),
    }
}

/// Whether all words of a block stand before a point of it.
pub fn is_passed(block: &CodeBlock, inserted: &[(u64, Word)], at: &Point) -> bool
    requires inserted { IsByOffset inserted.now block.now.inserted }
    requires size { code_size block.now < 2 ^ 62 }
    ensures { result ≡ is_passed block.now at.now }
{
    at.offset == 4 * block.own.len() as u64 && at.j >= count_at(inserted, at.offset) as u64
}

/// The point after the word at a point of a block.
pub fn after_in(block: &CodeBlock, inserted: &[(u64, Word)], at: &Point) -> Point
    requires inserted { IsByOffset inserted.now block.now.inserted }
    requires size { code_size block.now < 2 ^ 62 }
    requires word { IsSome (word_in block.now at.now) }
    ensures { result ≡ after_in block.now at.now }
{
    if at.j < count_at(inserted, at.offset) as u64 {
        Point {
            block: at.block,
            offset: at.offset,
            j: at.j + 1,
        }
    } else {
        Point {
            block: at.block,
            offset: at.offset + 4,
            j: 0,
        }
    }
}

/// How far a point of a block is behind its start, once words are inserted.
pub fn depth_in(block: &CodeBlock, inserted: &[(u64, Word)], at: &Point) -> u128
    requires { IsByOffset inserted.now block.now.inserted }
    ensures value { result ≡ at.now.offset + (4 * inserted_below at.now.offset block.now + 4 * at.now.j) }
    ensures small { result < 2 ^ 68 }
{
    let (offset, j) = (at.offset, at.j);
    let before = count_below(inserted, offset);
    offset as u128 + (4 * before as u128 + 4 * j as u128)
}
