//! Lines of patch text as a table of patches, or the first line at fault.

ghost use Rattle.std.specs.Prelude.{◌≡◌, ℕ, List, is_some};
ghost use Rattle.std.specs.HashMap.{get_by_text};
ghost use Rattle.patch_lines.specs.Answers.{Gives};
ghost use Rattle.patch_lines.specs.Building.{outcome, outcome_with};
ghost use Rattle.patch_lines.specs.Indexed.{Knows};

use crate::fault::PatchFault;
use crate::first::check_lines;
use crate::index::Index;
use crate::line::PatchLine;
use crate::second::check_targets;
use crate::table::{functions_in, inserts_in};
use gr_base::End;
use indexmap::IndexMap;
use std::alloc::Global;
use sym_expr::PatchTable;

/// The table that lines without a fault of the first pass give, or the first of them at fault.
fn build_with(
    alloc: Global,
    index: &Index,
    names: &IndexMap<String, ()>,
    lines: &[PatchLine],
) -> Result<PatchTable, End<PatchFault>>
    requires { Knows index.now }
    ensures { Gives result (outcome_with index.now.«module» (λ q. is_some (get_by_text names.now q)) lines.now) }
{
    if let Err(fault) = check_targets(index, names, lines) {
        return Err(End::Fault(fault));
    }
    let inserts = inserts_in(alloc, index, names, lines)?;
    let functions = functions_in(alloc, index, names, lines)?;
    Ok(PatchTable { inserts, functions })
}

/// The table that lines give, or the first of them at fault.
pub fn build_table(
    alloc: Global,
    index: &Index,
    lines: &[PatchLine],
) -> Result<PatchTable, End<PatchFault>>
    requires { Knows index.now }
    ensures { Gives result (outcome index.now.«module» lines.now) }
{
    match check_lines(alloc, index, lines) {
        Ok(names) => build_with(alloc, index, &names, lines),
        Err(end) => Err(end),
    }
}
