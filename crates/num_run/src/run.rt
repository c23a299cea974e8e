ghost use Rattle.std.specs.Prelude.{◌≡◌, ◌≤◌, ℕ, IfOk};
ghost use Rattle.bare_image.specs.Valid.{image_ok};
ghost use Rattle.num_run.specs.Run.{num_run};

use crate::report::RunReport;
use crate::running::Machine;
use bare_image::Image;
use gr_base::Bytes;
use std::alloc::{AllocError, Global};

/// Runs an image for so many instructions, or fewer where the run ends before.
pub fn run_image(
    alloc: Global,
    image: &Image,
    input: &[u8],
    steps: u64,
) -> Result<RunReport, AllocError>
    requires image { image_ok image.now }
    requires steps { steps ≤ 10000000 }
    ensures { IfOk result (λ report. report ≡ num_run image.now input.now steps) }
{
    let mut machine = Machine::open(alloc, image, input)?;
    let end = machine.go(steps);
    Ok(RunReport {
        steps: machine.done(),
        end,
        output: Bytes::from_slice(alloc, machine.output())?,
    })
}
