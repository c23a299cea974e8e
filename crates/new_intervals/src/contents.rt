//! The bytes of an interval, piece by piece.

ghost use Rattle.std.specs.Prelude.{◌≡◌, ◌++◌, replicate, IfOk, OnOk};
ghost use Rattle.std.specs.List.{flat_map};
ghost use Rattle.block_parts.specs.declared.words.PatchedWord.{PatchedWord as PatchedWordOf};
ghost use Rattle.new_intervals.specs.Placed.{placed_all, placed_of, AreRoomy};
ghost use Rattle.rewrite.specs.Contents.{bytes_from, piece_bytes, word_bytes};
ghost use Rattle.sym_expr.specs.Images.{all_words, bytes_of};

use crate::spots::Spot;
use block_parts::PatchedWord;
use block_parts::laws::words_are_of_images;
use gr_base::Bytes;
use layout_plan::new_size;
use std::alloc::{AllocError, Global};
use sym_expr::{CodeBlock, Piece};
use taken_ids::patched_words;

fn push_zeros(out: &mut Vec<u8>, count: u64) -> Result<(), AllocError>
    ensures { OnOk result (out.new.items ≡ out.old.items ++ replicate count 0) }
{
    for _ in 0..count {
        out.push(0)?;
    }
    Ok(())
}

fn push_words(out: &mut Vec<u8>, words: &[PatchedWord]) -> Result<(), AllocError>
    ensures { OnOk result (out.new.items ≡ out.old.items ++ flat_map (λ (w : PatchedWordOf). bytes_of 4 w.word) words.now) }
{
    for word in words {
        out.extend_from_slice(&word.word.to_le_bytes())?;
    }
    Ok(())
}

/// Adds the bytes of a code block.
fn push_code(alloc: Global, out: &mut Vec<u8>, block: &CodeBlock) -> Result<(), AllocError>
    ensures { OnOk result (out.new.items ≡ out.old.items ++ flat_map word_bytes (all_words block.now)) }
{
    words_are_of_images();
    let words = patched_words(alloc, block)?;
    push_words(out, words.as_slice())?;
    Ok(())
}

/// Adds the bytes of a piece.
fn push_piece(alloc: Global, out: &mut Vec<u8>, piece: &Piece) -> Result<(), AllocError>
    ensures { OnOk result (out.new.items ≡ out.old.items ++ piece_bytes piece.now) }
{
    match piece {
        Piece::Code(block) => push_code(alloc, out, block),
        Piece::Data(block) => out.extend_from_slice(block.bytes.as_slice()),
        Piece::Gap(bytes) => out.extend_from_slice(bytes.as_slice()),
    }
}

/// The bytes of pieces, of which there are so many with what lies between the pieces.
pub(crate) fn new_contents(
    alloc: Global,
    spots: &[Spot<'_>],
    size: u64,
) -> Result<Bytes, AllocError>
    requires { AreRoomy (placed_all spots.now) }
    ensures { IfOk result (λ bytes. bytes ≡ bytes_from 0 (placed_all spots.now)) }
{
    let mut out = Vec::with_capacity(alloc, size as usize)?;
    let mut end = 0;
    for spot in spots {
        push_zeros(&mut out, spot.at.saturating_sub(end))?;
        push_piece(alloc, &mut out, spot.piece)?;
        end = spot.at + new_size(spot.piece);
    }
    Ok(Bytes::from_vec(out))
}
