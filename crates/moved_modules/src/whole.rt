//! All that a rewriting moves.

ghost use Rattle.std.specs.Prelude.{◌≡◌, IfOk};
ghost use Rattle.moved_modules.specs.Moved.{moved_in};
ghost use Rattle.sym_expr.specs.WellMade.{well_made};

use crate::blocks::moved_blocks;
use crate::functions::new_functions;
use crate::intervals::moved_intervals;
use crate::moved::Moved;
use gt_model::Module;
use std::alloc::{AllocError, Global};
use sym_expr::{PatchTable, Program};

/// What the rewriting moves of a module that has this program with the patches.
pub fn moved_in(
    alloc: Global,
    module: &Module,
    program: &Program,
    patches: &PatchTable,
) -> Result<Moved, AllocError>
    requires { well_made program.now }
    ensures { IfOk result (λ moved. moved ≡ moved_in «module».now program.now patches.now) }
{
    let blocks = moved_blocks(alloc, module, program, patches)?;
    let intervals = moved_intervals(alloc, program)?;
    let functions = new_functions(alloc, module, patches)?;
    Ok(Moved {
        blocks,
        intervals,
        functions,
    })
}
