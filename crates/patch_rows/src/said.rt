//! What was moved, in words.

use graph_rewrite::{Moved, MovedBlock, MovedInterval, NewFunction, Part, Piece, WordFrom};
use std::alloc::{AllocError, Global};
use uuid::Uuid;

/// The first byte of an identifier, which in examples has sixteen equal ones.
fn first_byte(id: &Uuid) -> u8 {
    id.as_bytes()[0]
}

fn push_word(alloc: Global, said: &mut String, word: &WordFrom) -> Result<(), AllocError> {
    match word {
        WordFrom::Old(offset) => said.push_str(format!(in alloc; " {offset}")?.as_str()),
        WordFrom::Insert(None) => said.push_str(" new"),
        WordFrom::Insert(Some(_)) => said.push_str(" named"),
    }
}

/// A part by its offset and size, and where its words come from.
fn push_part(alloc: Global, said: &mut String, part: &Part) -> Result<(), AllocError> {
    said.push_str(format!(in alloc; " part {}+{}", part.start, part.size)?.as_str())?;
    for word in part.words.as_slice() {
        push_word(alloc, said, word)?;
    }
    Ok(())
}

fn push_block(alloc: Global, said: &mut String, block: &MovedBlock) -> Result<(), AllocError> {
    said.push_str(format!(in alloc; " block u{:02x}", first_byte(&block.block))?.as_str())?;
    for part in block.parts.as_slice() {
        push_part(alloc, said, part)?;
    }
    Ok(())
}

fn push_piece(alloc: Global, said: &mut String, piece: &Piece) -> Result<(), AllocError> {
    said.push_str(format!(in alloc; " {}+{}@{}", piece.from, piece.len, piece.to)?.as_str())
}

/// An interval by its sizes, and where its bytes go.
fn push_interval(
    alloc: Global,
    said: &mut String,
    interval: &MovedInterval,
) -> Result<(), AllocError> {
    let id = first_byte(&interval.interval);
    let (old, new) = (interval.old_size, interval.new_size);
    said.push_str(format!(in alloc; " interval u{:02x} {old} to {new}", id)?.as_str())?;
    for piece in interval.pieces.as_slice() {
        push_piece(alloc, said, piece)?;
    }
    Ok(())
}

fn push_function(
    alloc: Global,
    said: &mut String,
    function: &NewFunction,
) -> Result<(), AllocError> {
    said.push_str(format!(in alloc; " function of {}", function.blocks.len())?.as_str())
}

fn push_blocks(alloc: Global, said: &mut String, blocks: &[MovedBlock]) -> Result<(), AllocError> {
    for block in blocks {
        push_block(alloc, said, block)?;
    }
    Ok(())
}

fn push_intervals(
    alloc: Global,
    said: &mut String,
    intervals: &[MovedInterval],
) -> Result<(), AllocError> {
    for interval in intervals {
        push_interval(alloc, said, interval)?;
    }
    Ok(())
}

fn push_functions(
    alloc: Global,
    said: &mut String,
    functions: &[NewFunction],
) -> Result<(), AllocError> {
    for function in functions {
        push_function(alloc, said, function)?;
    }
    Ok(())
}

/// The words of what was moved, each behind a space.
pub fn moved_text(alloc: Global, moved: &Moved) -> Result<String, AllocError> {
    let mut said = String::new(alloc);
    push_blocks(alloc, &mut said, moved.blocks.as_slice())?;
    push_intervals(alloc, &mut said, moved.intervals.as_slice())?;
    push_functions(alloc, &mut said, moved.functions.as_slice())?;
    Ok(said)
}
