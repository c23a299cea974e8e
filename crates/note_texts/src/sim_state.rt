//! Where a symbolic run stands, as a note says it.

ghost use Rattle.std.specs.Prelude.{◌≡◌, IfOk, Some};
ghost use Rattle.std.specs.String.{string_bytes};
ghost use Rattle.note_texts.specs.SimTexts.{cause_text, point_text, sim_end_text, sim_text};

use crate::state::TrapNote;
use std::alloc::{AllocError, Global};
use std::fmt;
use sym_expr::{Cause, Point};
use sym_run::{SymEnd, SymReport};

/// Why a program is stuck.
#[derive(Drop)]
struct CauseNote(Cause);

impl fmt::Display for CauseNote {
    ghost output = { λ note. Some (cause_text note.0) };

    fn fmt<W: fmt::Write>(&self, f: &mut fmt::Formatter<W>) -> fmt::Result {
        match self.0 {
            Cause::Value => write!(f, "value"),
            Cause::Outside => write!(f, "outside"),
            Cause::Mixed => write!(f, "mixed"),
            Cause::Flag => write!(f, "flag"),
            Cause::Fell => write!(f, "fell"),
            Cause::Plain => write!(f, "plain"),
            Cause::Undefined => write!(f, "undefined"),
        }
    }
}

/// A point of a program.
#[derive(Drop)]
struct PointNote(Point);

impl fmt::Display for PointNote {
    ghost output = { λ note. Some (point_text note.0) };

    fn fmt<W: fmt::Write>(&self, f: &mut fmt::Formatter<W>) -> fmt::Result {
        let at = self.0;
        write!(f, "{}+{}.{}", at.block, at.offset, at.j)
    }
}

#[derive(Drop)]
struct EndNote(SymEnd);

impl fmt::Display for EndNote {
    ghost output = { λ note. Some (sim_end_text note.0) };

    fn fmt<W: fmt::Write>(&self, f: &mut fmt::Formatter<W>) -> fmt::Result {
        match self.0 {
            SymEnd::Running => write!(f, "running"),
            SymEnd::Exit(status) => write!(f, "exit {status}"),
            SymEnd::Trap(why) => write!(f, "trap {}", TrapNote(why)),
            SymEnd::Stuck(at, cause) => {
                write!(f, "stuck {} at {}", CauseNote(cause), PointNote(at))
            }
        }
    }
}

/// The state of a symbolic run: how many instructions it did, and where it stands.
pub fn sim_note(alloc: Global, report: &SymReport) -> Result<String, AllocError>
    ensures { IfOk result (λ text. string_bytes text ≡ sim_text report.now) }
{
    let steps = report.steps;
    let end = EndNote(report.end);
    format!(in alloc; "steps={steps} {end}")
}
