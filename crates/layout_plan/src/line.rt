//! Lines of layout text.

ghost use Rattle.std.specs.Prelude.{◌≡◌, ◌++◌, ◌∷◌, ◌≤◌, ◌<◌, ◌+◌, ◌↔◌, ℕ, [], length, ◌==◌, position, IsTrue, IfSome, IfNone, IfOk, IfErr, Some};
ghost use Rattle.asm_read.specs.Identifier.{identifier_of};
ghost use Rattle.asm_read.specs.Number.{IsNumber};
ghost use Rattle.sym_expr.specs.declared.layout.PlaceAt.{PlaceAt};
ghost use Rattle.sym_expr.specs.Layouts.{IsStackSize};
ghost use Rattle.layout_plan.specs.declared.line.LayoutLine.{LayoutLine};
ghost use Rattle.layout_plan.specs.declared.line.StackAt.{StackAt};
ghost use Rattle.layout_plan.specs.Answers.{IsLine};
ghost use Rattle.layout_plan.specs.Text.{lines_of, IsPlace, IsStack, ThreeSay, WordsSay, Says};

use crate::fault::LayoutFault;
use asm_read::{read_number, read_uuid, split_words};
use gr_base::{Bytes, End};
use std::alloc::Global;
use sym_expr::PlaceAt;

/// The most bytes of a stack, 2 ^ 24.
const MOST: u64 = 16_777_216;

/// What a line of layout text says.
#[derive(Clone, Copy, Debug, PartialEq, Eq)]
pub enum LayoutLine {
    Place(PlaceAt),
    Stack(StackAt),
}

/// Where the stack lies, and how many bytes it has.
#[derive(Clone, Copy, Debug, PartialEq, Eq)]
pub struct StackAt {
    pub at: u64,
    pub size: u64,
}

fn find_line_end(text: &[u8]) -> Option<usize>
    ensures { result ≡ position (λ b. b == 10) text.now }
{
    text.iter().position(|byte| *byte == b'\n')
}

/// The first line of a text that isn't empty, and what stands behind it.
pub fn split_line(text: &[u8]) -> (&[u8], &[u8])
    requires { 0 < length text.now }
    ensures line { lines_of text.now ≡ result.0.now ∷ lines_of result.1.now }
    ensures shorter { length result.1.now < length text.now }
{
    match find_line_end(text) {
        Some(end) => (&text[..end], &text[end + 1..]),
        None => (text, &[]),
    }
}

fn is_stack_size(size: u64) -> bool
    ensures { IsTrue result ↔ IsStackSize size }
{
    size % 16 == 0 && size >= 16 && size <= MOST
}

fn read_place(interval: &[u8], at: &[u8]) -> Option<PlaceAt>
    ensures some { IfSome result (IsPlace interval.now at.now) }
    ensures none { IfNone result ((p : PlaceAt) → IsPlace interval.now at.now p → ⊥) }
{
    Some(PlaceAt {
        interval: read_uuid(interval)?,
        at: read_number(at)?,
    })
}

fn read_stack(at: &[u8], size: &[u8]) -> Option<StackAt>
    ensures some { IfSome result (IsStack at.now size.now) }
    ensures none { IfNone result ((s : StackAt) → IsStack at.now size.now s → ⊥) }
{
    let at = read_number(at)?;
    let size = read_number(size)?;
    if is_stack_size(size) {
        Some(StackAt { at, size })
    } else {
        None
    }
}

fn is_word(word: &[u8], text: &[u8]) -> bool
    ensures { IsTrue result ↔ (word.now ≡ text.now) }
{
    word == text
}

/// What three words say, if they are those of a line of layout text.
fn read_three(first: &[u8], second: &[u8], third: &[u8]) -> Option<LayoutLine>
    ensures some { IfSome result (ThreeSay first.now second.now third.now) }
    ensures none { IfNone result ((said : LayoutLine) → ThreeSay first.now second.now third.now said → ⊥) }
{
    if is_word(first, b"place") {
        let place = read_place(second, third)?;
        Some(LayoutLine::Place(place))
    } else if is_word(first, b"stack") {
        let stack = read_stack(second, third)?;
        Some(LayoutLine::Stack(stack))
    } else {
        None
    }
}

fn read_words(words: &[Bytes]) -> Option<LayoutLine>
    ensures some { IfSome result (WordsSay words.now) }
    ensures none { IfNone result ((said : LayoutLine) → WordsSay words.now said → ⊥) }
{
    match words {
        [first, second, third] => read_three(first.as_slice(), second.as_slice(), third.as_slice()),
        _ => None,
    }
}

/// What a line says, where it is the text's line of this number.
pub fn read_line(alloc: Global, line: &[u8], number: u64) -> Result<LayoutLine, End<LayoutFault>>
    ensures says { IfOk result (Says line.now) }
    ensures fault { IfErr result (λ e. IsLine e (λ n. (n ≡ number) × ((said : LayoutLine) → Says line.now said → ⊥))) }
{
    match split_words(alloc, line) {
        Ok(words) => match read_words(words.as_slice()) {
            Some(said) => Ok(said),
            None => Err(End::Fault(LayoutFault::Line(number))),
        },
        Err(End::Fault(_)) => Err(End::Fault(LayoutFault::Line(number))),
        Err(End::Memory) => Err(End::Memory),
    }
}
