ghost use Rattle.std.specs.Prelude.{◌≡◌, ◌⊎◌, ◌↔◌, ℕ, List, [], Some, None};
ghost use Rattle.gr_base.specs.Desk.{Told, ToldBoth, Rose};
ghost use Rattle.gt_front.specs.declared.answer.Answer.TheVariants as answers;
ghost use Rattle.command_words.specs.Words.{Usage, WordsOk};
ghost use Rattle.command_words.specs.Picked.{picked, picked_view, InBounds};
ghost use Rattle.jobs.specs.Inputs.{inputs_of};
ghost use Rattle.jobs.specs.Outcome.{Outcome, Promised, out_of};
ghost use Rattle.gt_front.specs.Causes.{ReadFaultCause, TooLargeCause, WriteFaultCause, IsOwn, IsComplete, Kept, WritesNothing};
ghost use Rattle.gt_front.specs.Served.{Served};

use crate::answer::Answer;
use crate::inputs::read_inputs;
use crate::output::write_output;
use command_words::laws::words_or_usage;
use command_words::{Picked, parse_words};
use gr_base::{Desk, End, Seq, Text};
use jobs::laws::one_outcome;
use jobs::make;
use std::alloc::Global;

/// Reads what the words name, does the job, and writes what it has made.
fn serve_picked<D: Desk>(alloc: Global, asked: &Picked<'_>, desk: &mut D) -> Answer
    requires { InBounds asked.now.settings }
    ensures { Served (Some (picked_view asked.now)) [] (record {
      old = D.files desk.old;
      new = D.files desk.new;
      steady = D.steady desk.old;
      read_before = D.read_faults desk.old;
      read_now = D.read_faults desk.new;
      write_before = D.write_faults desk.old;
      write_now = D.write_faults desk.new;
      taken_before = D.taken desk.old;
      taken_now = D.taken desk.new;
    }) result }
{
    one_outcome();
    let contents = match read_inputs(alloc, desk, asked) {
        Ok(contents) => contents,
        Err(unread) => return Answer::unread(unread),
    };
    let finished = match make(alloc, asked, &contents) {
        Ok(finished) => finished,
        Err(End::Fault(refusal)) => return Answer::refused(refusal),
        Err(End::Memory) => return Answer::Memory,
    };
    match write_output(desk, asked.out(), finished) {
        Ok(text) => Answer::Done(text),
        Err(End::Fault(_)) => Answer::WriteFault,
        Err(End::Memory) => Answer::Memory,
    }
}

/// Does the job that the words ask for, over the files of a desk: all that the program does.
pub fn serve_words<D: Desk>(alloc: Global, words: &Seq<Text>, desk: &mut D) -> Answer
    // The words come first.
    ensures usage { (index : ℕ) → (result ≡ Answer.Usage index) ↔ Usage words.now index }

    // When the other answers come.
    ensures read_fault { WordsOk words.now → ReadFaultCause (inputs_of (picked words.now)) (D.files desk.old) (D.steady desk.old) (D.read_faults desk.old) (D.read_faults desk.new) result }
    ensures too_large { WordsOk words.now → TooLargeCause (inputs_of (picked words.now)) (D.files desk.old) (D.steady desk.old) (D.taken desk.old) (D.taken desk.new) result }
    ensures write_fault { WordsOk words.now → WriteFaultCause (Outcome (picked words.now) []) (out_of (picked words.now)) (D.files desk.old) (D.steady desk.old) (D.write_faults desk.old) (D.write_faults desk.new) result }
    ensures own { WordsOk words.now → IsOwn (Outcome (picked words.now) []) (D.files desk.old) result }
    ensures complete { WordsOk words.now → IsComplete (inputs_of (picked words.now)) (Outcome (picked words.now) []) (D.files desk.old) (D.steady desk.old)
        (Rose (D.read_faults desk.old) (D.read_faults desk.new) ⊎ Rose (D.write_faults desk.old) (D.write_faults desk.new)) result }
    ensures promised { (text : List ℕ) → result ≡ Answer.Done text → Told (D.files desk.old) (Promised (picked words.now)) }

    // What the files hold afterwards.
    ensures kept { ToldBoth (D.files desk.old) (D.files desk.new) (Kept (Outcome (picked words.now) []) (out_of (picked words.now)) result) }
    ensures nothing { out_of (picked words.now) ≡ None → ToldBoth (D.files desk.old) (D.files desk.new) (WritesNothing result) }
{
    words_or_usage();
    match parse_words(words.as_slice()) {
        Ok(asked) => serve_picked(alloc, &asked, desk),
        Err(index) => Answer::Usage(index),
    }
}
