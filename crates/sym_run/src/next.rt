//! What a machine comes to next.

ghost use Rattle.std.specs.Prelude.{◌≡◌};
ghost use Rattle.std.specs.Option.{option_and_then, option_map};
ghost use Rattle.sym_expr.specs.declared.point.Point.{Point as PointOf};
ghost use Rattle.sym_expr.specs.declared.program.Word.{Word as WordOf};
ghost use Rattle.sym_expr.specs.Points.{word_at};
ghost use Rattle.sym_run.specs.Next.{code_in, interval_of, next_at};

use crate::report::Next;
use indexed_program::IndexedProgram;
use sym_expr::{Point, Target, Word};
use uuid::Uuid;

/// The point of code that a target is, if it is one.
fn code_in(target: &Target) -> Option<Point>
    ensures { result ≡ code_in target.now }
{
    match *target {
        Target::Code(point) => Some(point),
        _ => None,
    }
}

/// The point of code that a word's expression names, if it names one.
fn named(word: &Option<Word>) -> Option<Point>
    ensures { result ≡ option_and_then (λ (w : WordOf). option_and_then code_in w.target) word.now }
{
    match word {
        Some(
            Word {
                target: Some(target),
                ..
            },
        ) => code_in(target),
        _ => None,
    }
}

/// The interval of a code block; one that there is not stands for itself.
fn interval_of(program: &IndexedProgram, block: Uuid) -> Uuid
    ensures { result ≡ interval_of program.now block }
{
    match program.interval_of(block) {
        Some(interval) => interval,
        None => block,
    }
}

/// The word itself, if there is one.
fn word_of(word: &Option<Word>) -> Option<u32>
    ensures { result ≡ option_map (λ (w : WordOf). w.word) word.now }
{
    match word {
        Some(word) => Some(word.word),
        None => None,
    }
}

/// The interval of a point of code, if there is one.
fn interval_at(program: &IndexedProgram, target: &Option<Point>) -> Option<Uuid>
    ensures { result ≡ option_map (λ (p : PointOf). interval_of program.now p.block) target.now }
{
    match target {
        Some(point) => Some(interval_of(program, point.block)),
        None => None,
    }
}

/// The interval of the code that a point is in.
fn interval_from(program: &IndexedProgram, at: &Point) -> Uuid
    ensures { result ≡ interval_of program.now at.now.block }
{
    interval_of(program, at.block)
}

/// The word at a point.
fn word_at(program: &IndexedProgram, at: &Point) -> Option<Word>
    ensures { result ≡ word_at program.now at.now }
{
    program.word(*at)
}

/// What a machine at a place comes to next.
pub fn next_at(program: &IndexedProgram, place: Point) -> Next
    ensures { result ≡ next_at program.now place }
{
    let point = program.reached(place);
    let word = word_at(program, &point);
    let target = named(&word);
    Next {
        word: word_of(&word),
        from: interval_from(program, &point),
        to: interval_at(program, &target),
        point,
        target,
    }
}
