//! Many instructions in a row.

ghost use Rattle.std.specs.Prelude.{◌≡◌, ◌≤◌, ◌+◌, ℕ};
ghost use Rattle.a64_inst.specs.Runs.{onward};
ghost use Rattle.num_run.specs.Decoded.{IsCache};
ghost use Rattle.paged_memory.specs.Mapped.{IsMemory};
ghost use Rattle.num_run.specs.Opened.{so_far};
ghost use Rattle.num_run.specs.Run.{step};
ghost use Rattle.num_run.specs.Runner.{machine};

use crate::cache::Cache;
use crate::report::RunEnd;
use crate::runner::Runner;

/// How many instructions were done, and how the run stands.
#[derive(Drop)]
pub struct Stop {
    pub done: u64,
    pub end: RunEnd,
}

/// Does so many instructions, or fewer where the run ends before.
fn do_steps(runner: &mut Runner<'_>, cache: &mut Cache, steps: u64) -> Stop
    requires memory { IsMemory runner.old.memory }
    requires cache { IsCache cache.old }
    ensures memory { IsMemory runner.new.memory }
    ensures cache { IsCache cache.new }
    ensures done { result.done ≤ steps }
    ensures reached { (before : ℕ) → onward step steps (so_far before RunEnd.Running (machine runner.old)) ≡ so_far (before + result.done) result.end (machine runner.new) }
{
    for done in 0..steps {
        match runner.step(cache) {
            RunEnd::Running => {}
            end => {
                return Stop {
                    done: done + 1,
                    end,
                };
            }
        }
    }
    Stop {
        done: steps,
        end: RunEnd::Running,
    }
}

/// The same from how a run stands: nothing follows an end.
pub fn go_on(runner: &mut Runner<'_>, cache: &mut Cache, end: RunEnd, steps: u64) -> Stop
    requires memory { IsMemory runner.old.memory }
    requires cache { IsCache cache.old }
    ensures memory { IsMemory runner.new.memory }
    ensures cache { IsCache cache.new }
    ensures done { result.done ≤ steps }
    ensures reached { (before : ℕ) → onward step steps (so_far before end (machine runner.old)) ≡ so_far (before + result.done) result.end (machine runner.new) }
{
    match end {
        RunEnd::Running => do_steps(runner, cache, steps),
        end => Stop { done: 0, end },
    }
}
