//! Why an expression has no value.

ghost use Rattle.std.specs.Prelude.{◌≡◌, ◌<◌, ◌+◌, ◌^◌, Some, Err, IfOk, Ok};
ghost use Rattle.std.specs.Option.{option_and_then};
ghost use Rattle.sym_expr.specs.Images.{filled_word, filling_fault, filling_value, misfit, undefined_in, undefined_of, word_fault};
ghost use Rattle.sym_expr.specs.Layouts.{address_of};
ghost use Rattle.sym_expr.specs.WellMade.{IsFilling, IsWord};
ghost use Rattle.link_image.specs.Answers.{TellsFault};
ghost use Rattle.link_image.specs.Ready.{IsReady};

use crate::linker::Linker;
use sym_expr::{Filling, FitFault, LinkFault, Stretch, Target, Word};
use uuid::Uuid;

fn undefined_in(target: &Target) -> Option<Uuid>
    ensures { result ≡ undefined_in target.now }
{
    match target {
        Target::Undefined(symbol) => Some(*symbol),
        _ => None,
    }
}

fn undefined_of(filling: &Filling) -> Option<Uuid>
    ensures { result ≡ undefined_of filling.now }
{
    match filling {
        Filling::Pointer(target) => undefined_in(target),
        Filling::Difference(_, p, q) | Filling::Entry(_, _, p, q) => {
            undefined_in(p).or(undefined_in(q))
        }
    }
}

fn undefined_for(word: &Word) -> Option<Uuid>
    ensures { result ≡ option_and_then undefined_in word.now.target }
{
    match &word.target {
        Some(target) => undefined_in(target),
        None => None,
    }
}

fn misfit(interval: Uuid, offset: u64, fault: FitFault) -> LinkFault
    ensures { misfit interval offset (Err fault) ≡ Some result }
{
    match fault {
        FitFault::Range(value) => LinkFault::Range(interval, offset, value),
        FitFault::Unaligned(value) => LinkFault::Unaligned(interval, offset, value),
    }
}

impl Linker<'_> {
    /// The word at an offset of an interval, which lies at a start, with its operand.
    pub fn checked_word(
        &self,
        stretch: &Stretch,
        start: u64,
        offset: u64,
        word: &Word,
    ) -> Result<u32, LinkFault>
        requires ready { IsReady self.now }
        requires start { start ≡ address_of self.now.layout.now stretch.now.id }
        requires fits { start + offset < 2 ^ 64 }
        requires word { IsWord self.now.program.now word.now }
        ensures fault { TellsFault result (word_fault self.now.layout.now self.now.program.now stretch.now (offset, word.now)) }
        ensures word { IfOk result (λ n. filled_word self.now.layout.now self.now.program.now (start + offset) word.now ≡ Ok n) }
    {
        if let Some(symbol) = undefined_for(word) {
            return Err(LinkFault::Undefined(symbol));
        }
        match self.filled_word(start + offset, word) {
            Ok(filled) => Ok(filled),
            Err(fault) => Err(misfit(stretch.id, offset, fault)),
        }
    }

    /// The number of a filling at an offset of an interval.
    pub fn checked_filling(
        &self,
        stretch: &Stretch,
        at: u64,
        offset: u64,
        filling: &Filling,
    ) -> Result<u64, LinkFault>
        requires ready { IsReady self.now }
        requires fits { at + offset < 2 ^ 64 }
        requires filling { IsFilling self.now.program.now filling.now }
        ensures fault { TellsFault result (filling_fault self.now.layout.now self.now.program.now stretch.now at (offset, filling.now)) }
        ensures value { IfOk result (λ n. filling_value self.now.layout.now self.now.program.now filling.now ≡ Ok n) }
    {
        if let Some(symbol) = undefined_of(filling) {
            return Err(LinkFault::Undefined(symbol));
        }
        match self.filling_value(filling) {
            Ok(value) => Ok(value),
            Err(fault) => Err(misfit(stretch.id, at + offset, fault)),
        }
    }
}
