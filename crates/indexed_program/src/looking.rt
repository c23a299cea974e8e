//! What the indexes of a program answer.

ghost use Rattle.std.specs.Prelude.{◌≡◌, ◌<◌, ◌^◌, IsSome, MatchOption};
ghost use Rattle.std.specs.Option.{option_copied, option_map};
ghost use Rattle.sym_expr.specs.Points.{after, data_at, reached, stretch_of, word_at};
ghost use Rattle.sym_expr.specs.Symbolic.{point_offset};
ghost use Rattle.indexed_program.specs.Kept.{IsCodeSpot, IsIndexed, IsNoCode};

use crate::code::{after_in, code_at, data_at, depth_in, is_passed, word_in};
use crate::spot::{CodeSpot, Indexes};
use sym_expr::{CodeBlock, DataBlock, Point, Program, Word};
use uuid::Uuid;

/// A code block, and what is kept of it.
#[derive(Clone, Copy)]
struct Found<'a, 'b> {
    block: &'a CodeBlock,
    kept: &'b CodeSpot,
}

/// The code block of an identifier.
fn find_code<'a, 'b>(program: &'a Program, indexes: &'b Indexes, id: Uuid) -> Option<Found<'a, 'b>>
    requires { IsIndexed program.now indexes.now }
    ensures { MatchOption result (IsNoCode program.now id) (λ found. IsCodeSpot program.now id found.block.now found.kept.now) }
{
    let kept = indexes.code.get(&id)?;
    let block = code_at(program, kept.spot)?;
    Some(Found { block, kept })
}

/// The word at a point.
pub fn word_of(program: &Program, indexes: &Indexes, at: Point) -> Option<Word>
    requires { IsIndexed program.now indexes.now }
    ensures { result ≡ word_at program.now at }
{
    match find_code(program, indexes, at.block) {
        Some(found) => word_in(found.block, found.kept.inserted.as_slice(), &at),
        None => None,
    }
}

/// Where a point goes on while it has no word.
pub fn reached_of(program: &Program, indexes: &Indexes, at: Point) -> Point
    requires { IsIndexed program.now indexes.now }
    ensures { result ≡ reached program.now at }
{
    match find_code(program, indexes, at.block) {
        Some(found) => {
            if is_passed(found.block, found.kept.inserted.as_slice(), &at) {
                found.kept.onward.unwrap_or(at)
            } else {
                at
            }
        }
        None => at,
    }
}

/// The point after the word at a point.
pub fn after_of(program: &Program, indexes: &Indexes, at: Point) -> Point
    requires indexed { IsIndexed program.now indexes.now }
    requires word { IsSome (word_at program.now at) }
    ensures { result ≡ after program.now at }
{
    match find_code(program, indexes, at.block) {
        Some(found) => after_in(found.block, found.kept.inserted.as_slice(), &at),
        None => at,
    }
}

/// The offset of a point in its interval, once words are inserted.
pub fn point_offset(program: &Program, indexes: &Indexes, at: Point) -> u128
    requires { IsIndexed program.now indexes.now }
    ensures value { result ≡ point_offset program.now at }
    ensures small { result < 2 ^ 69 }
{
    match find_code(program, indexes, at.block) {
        Some(found) => {
            let depth = depth_in(found.block, found.kept.inserted.as_slice(), &at);
            u128::from(found.kept.at) + depth
        }
        None => 0,
    }
}

/// A data block.
pub fn data_of<'a>(program: &'a Program, indexes: &Indexes, id: Uuid) -> Option<&'a DataBlock>
    requires { IsIndexed program.now indexes.now }
    ensures { option_copied result ≡ data_at program.now id }
{
    let spot = indexes.data.get(&id)?;
    data_at(program, *spot)
}

/// The interval of a code block.
pub fn interval_of(program: &Program, indexes: &Indexes, block: Uuid) -> Option<Uuid>
    requires { IsIndexed program.now indexes.now }
    ensures { result ≡ option_map (λ s. s.id) (stretch_of program.now block) }
{
    let found = find_code(program, indexes, block)?;
    let stretch = program.stretches.get(found.kept.spot.stretch)?;
    Some(stretch.id)
}
