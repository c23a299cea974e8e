//! Many instructions in a row.

ghost use Rattle.std.specs.Prelude.{◌≡◌, ◌≤◌, ◌+◌, ℕ, IfOk, OnErr};
ghost use Rattle.a64_inst.specs.Runs.{further, onward, Run};
ghost use Rattle.sym_expr.specs.declared.cause.Cause.{Cause as CauseOf};
ghost use Rattle.sym_expr.specs.Points.{reached};
ghost use Rattle.sym_expr.specs.States.{State};
ghost use Rattle.sym_expr.specs.Steps.{step};
ghost use Rattle.sym_run.specs.declared.report.SymEnd.TheVariants.{Running};
ghost use Rattle.sym_run.specs.Standing.{done_at, end_at, StandsAt};
ghost use Rattle.sym_step.specs.Found.{IsCache};
ghost use Rattle.sym_step.specs.Runner.{state};

use crate::report::SymEnd;
use indexed_program::IndexedProgram;
use std::alloc::AllocError;
use sym_expr::{Point, Value};
use sym_step::{Cache, Flow, Runner};

/// How many instructions were done, and how the run stands.
#[derive(Drop)]
pub struct Stop {
    pub done: u64,
    pub end: SymEnd,
}

/// How a run of a program stands behind a step of a flow, from this place on.
fn end_at(program: &IndexedProgram, place: &Point, flow: Flow) -> SymEnd
    ensures { result ≡ end_at (reached program.now place.now) flow }
{
    match flow {
        Flow::On | Flow::Placed => SymEnd::Running,
        Flow::Exit(status) => SymEnd::Exit(status),
        Flow::Trap(why) => SymEnd::Trap(why),
        Flow::Stuck(cause) => SymEnd::Stuck(program.reached(*place), cause),
    }
}

/// How many instructions are done by a step that comes to an end.
fn done_at(end: &SymEnd) -> u64
    ensures count { result ≡ done_at end.now }
    ensures most { result ≤ 1 }
{
    match end {
        SymEnd::Stuck(..) => 0,
        _ => 1,
    }
}

/// Does one instruction of a run that goes on.
#[tactic(auto, using(crate::proofs::Reached::one_step))]
pub fn do_step(
    runner: &mut Runner<'_>,
    program: &IndexedProgram,
    values: &mut Vec<Value>,
    cache: &mut Cache,
) -> Result<SymEnd, AllocError>
    requires { IsCache program.now cache.old }
    ensures cache { IsCache program.now cache.new }
    ensures ok { IfOk result (λ end. (r : Run CauseOf State) (done : ℕ) → StandsAt program.now r done Running runner.old → StandsAt program.now (further (step program.now) r) (done + done_at end) end runner.new) }
    ensures err { OnErr result (state runner.new ≡ state runner.old) }
{
    let flow = runner.step(program, values, cache)?;
    Ok(end_at(program, &runner.place, flow))
}

/// Does so many instructions, or fewer where the run ends before.
fn do_steps(
    runner: &mut Runner<'_>,
    program: &IndexedProgram,
    values: &mut Vec<Value>,
    cache: &mut Cache,
    steps: u64,
) -> Result<Stop, AllocError>
    requires { IsCache program.now cache.old }
    ensures cache { IsCache program.now cache.new }
    ensures done { IfOk result (λ stop. stop.done ≤ steps) }
    ensures reached { IfOk result (λ stop. (r : Run CauseOf State) (before : ℕ) → StandsAt program.now r before Running runner.old → StandsAt program.now (onward (step program.now) steps r) (before + stop.done) stop.end runner.new) }
{
    for done in 0..steps {
        match do_step(runner, program, values, cache)? {
            SymEnd::Running => {}
            end => {
                let last = done_at(&end);
                return Ok(Stop {
                    done: done + last,
                    end,
                });
            }
        }
    }
    Ok(Stop {
        done: steps,
        end: SymEnd::Running,
    })
}

/// The same from how a run stands: nothing follows an end.
pub fn go_on(
    runner: &mut Runner<'_>,
    program: &IndexedProgram,
    values: &mut Vec<Value>,
    cache: &mut Cache,
    end: SymEnd,
    steps: u64,
) -> Result<Stop, AllocError>
    requires { IsCache program.now cache.old }
    ensures cache { IsCache program.now cache.new }
    ensures done { IfOk result (λ stop. stop.done ≤ steps) }
    ensures reached { IfOk result (λ stop. (r : Run CauseOf State) (before : ℕ) → StandsAt program.now r before end runner.old → StandsAt program.now (onward (step program.now) steps r) (before + stop.done) stop.end runner.new) }
{
    match end {
        SymEnd::Running => do_steps(runner, program, values, cache, steps),
        end => Ok(Stop { done: 0, end }),
    }
}

/// Does one instruction of a run that may have ended; where memory is wanted the machine is as it was.
pub fn step_on(
    runner: &mut Runner<'_>,
    program: &IndexedProgram,
    values: &mut Vec<Value>,
    cache: &mut Cache,
    end: SymEnd,
) -> Result<Stop, AllocError>
    requires { IsCache program.now cache.old }
    ensures cache { IsCache program.now cache.new }
    ensures done { IfOk result (λ stop. stop.done ≤ 1) }
    ensures reached { IfOk result (λ stop. (r : Run CauseOf State) (before : ℕ) → StandsAt program.now r before end runner.old → StandsAt program.now (further (step program.now) r) (before + stop.done) stop.end runner.new) }
    ensures err { OnErr result (state runner.new ≡ state runner.old) }
{
    match end {
        SymEnd::Running => {
            let end = do_step(runner, program, values, cache)?;
            let done = done_at(&end);
            Ok(Stop { done, end })
        }
        end => Ok(Stop { done: 0, end }),
    }
}
