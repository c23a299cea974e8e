ghost use Rattle.std.specs.Prelude.{◌≡◌, ◌≤◌, ◌^◌, IfOk};
ghost use Rattle.sym_expr.specs.WellMade.{well_made};
ghost use Rattle.sym_run.specs.Run.{sym_run};

use crate::report::{SymEnd, SymReport};
use crate::steps::go_on;
use gr_base::Bytes;
use indexed_program::IndexedProgram;
use std::alloc::{AllocError, Global};
use sym_expr::Program;
use sym_step::{Cache, Runner};

/// Runs a program for so many instructions, or fewer where the run ends before.
#[tactic(auto, using(crate::proofs::Reached::begun, crate::proofs::Reached::seen_so))]
pub fn run_program(
    alloc: Global,
    program: Program,
    stack: u64,
    input: &[u8],
    steps: u64,
) -> Result<SymReport, AllocError>
    requires program { well_made program }
    requires stack { stack ≤ 2 ^ 24 }
    requires steps { steps ≤ 10000000 }
    ensures { IfOk result (λ report. report ≡ sym_run program stack input.now steps) }
{
    let program = IndexedProgram::new(alloc, program)?;
    let mut runner = Runner::new(alloc, &program, stack, input)?;
    let mut values = Vec::new(alloc);
    let mut cache = Cache::new(alloc)?;
    let stop = go_on(
        &mut runner,
        &program,
        &mut values,
        &mut cache,
        SymEnd::Running,
        steps,
    )?;
    Ok(SymReport {
        steps: stop.done,
        end: stop.end,
        output: Bytes::from_slice(alloc, runner.output.bytes.as_slice())?,
    })
}
