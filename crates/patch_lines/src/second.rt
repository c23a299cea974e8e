//! The second pass over lines of patch text: what their words name.

ghost use Rattle.std.specs.Prelude.{◌≡◌, ℕ, List, [], is_some};
ghost use Rattle.std.specs.HashMap.{get_by_text};
ghost use Rattle.patch_lines.specs.Answers.{Tells};
ghost use Rattle.patch_lines.specs.Faults.{second_pass};
ghost use Rattle.patch_lines.specs.Indexed.{Knows};

use crate::fault::PatchFault;
use crate::index::Index;
use crate::line::PatchLine;
use crate::target::check_target;
use indexmap::IndexMap;

/// Whether no line has a fault of the second pass.
pub(crate) fn check_targets(
    index: &Index,
    names: &IndexMap<String, ()>,
    lines: &[PatchLine],
) -> Result<(), PatchFault>
    requires { Knows index.now }
    ensures { Tells result (second_pass index.now.«module» (λ q. is_some (get_by_text names.now q)) [] lines.now) }
{
    let mut number: u64 = 0;
    for line in lines {
        number += 1;
        if let Err(reason) = check_target(index, names, line) {
            return Err(PatchFault {
                line: number,
                reason,
            });
        }
    }
    Ok(())
}
