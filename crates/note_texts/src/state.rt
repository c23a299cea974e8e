ghost use Rattle.std.specs.Prelude.{◌≡◌, IfOk, Some};
ghost use Rattle.note_texts.specs.StateTexts.{state_text, end_text, trap_text};
ghost use Rattle.std.specs.String.{string_bytes};

use num_run::{RunEnd, RunReport, Trap};
use std::alloc::{AllocError, Global};
use std::fmt;

/// Why a machine stopped, as a note says it.
#[derive(Drop)]
pub struct TrapNote(pub Trap);

impl fmt::Display for TrapNote {
    ghost output = { λ note. Some (trap_text note.0) };

    fn fmt<W: fmt::Write>(&self, f: &mut fmt::Formatter<W>) -> fmt::Result {
        match self.0 {
            Trap::Undecoded => write!(f, "undecoded"),
            Trap::Break(number) => write!(f, "break {number}"),
            Trap::Udf(number) => write!(f, "udf {number}"),
            Trap::BadCall => write!(f, "call"),
            Trap::Fault => write!(f, "fault"),
            Trap::OutputFull => write!(f, "output"),
        }
    }
}

/// Where a run stands, as a note says it.
#[derive(Drop)]
struct EndNote(RunEnd);

impl fmt::Display for EndNote {
    ghost output = { λ note. Some (end_text note.0) };

    fn fmt<W: fmt::Write>(&self, f: &mut fmt::Formatter<W>) -> fmt::Result {
        match self.0 {
            RunEnd::Running => write!(f, "running"),
            RunEnd::Exit(status) => write!(f, "exit {status}"),
            RunEnd::Trap(why) => {
                let why = TrapNote(why);
                write!(f, "trap {why}")
            }
        }
    }
}

/// The state of a run: how many instructions it did, and where it stands.
pub fn state_note(alloc: Global, report: &RunReport) -> Result<String, AllocError>
    ensures { IfOk result (λ text. string_bytes text ≡ state_text report.now) }
{
    let steps = report.steps;
    let end = EndNote(report.end);
    format!(in alloc; "steps={steps} {end}")
}
