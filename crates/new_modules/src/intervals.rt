//! The intervals of a section of a rewritten module.

ghost use Rattle.std.specs.Prelude.{◌≡◌, ◌+◌, ◌++◌, map, take, drop, length, IfOk, OnOk};
ghost use Rattle.aux_tables.specs.ModuleTables.{tables_of};
ghost use Rattle.new_intervals.specs.Knowing.{Knows};
ghost use Rattle.rewrite.specs.Functions.{function_interval};
ghost use Rattle.rewrite.specs.Rewritten.{new_interval};
ghost use Rattle.sym_expr.specs.Program.{stretch};
ghost use Rattle.sym_expr.specs.WellMade.{well_made};

use gt_model::{Interval, Module};
use new_intervals::{Inserts, function_interval, rewritten_interval};
use std::alloc::{AllocError, Global};
use sym_expr::{Function, Program};

/// The intervals of a loaded section, whose stretches stand in the program from here on.
pub(crate) fn old_intervals(
    alloc: Global,
    inserts: &Inserts<'_>,
    program: &Program,
    at: usize,
    intervals: &[Interval],
) -> Result<Vec<Interval>, AllocError>
    requires known { Knows inserts.now }
    requires well { well_made program.now }
    requires here { take (length intervals.now) (drop at program.now.stretches) ≡ map (stretch inserts.now.module.now (tables_of inserts.now.module.now) inserts.now.patches.now) intervals.now }
    ensures { IfOk result (λ made. made.items ≡ map (new_interval inserts.now.module.now (tables_of inserts.now.module.now) inserts.now.patches.now) intervals.now) }
{
    let mut made = Vec::new(alloc);
    let stretches = program.stretches.as_slice();
    for (k, interval) in intervals.iter().enumerate() {
        let place = at + k;
        let stretch = &stretches[place];
        let new = rewritten_interval(alloc, inserts, interval, stretch)?;
        made.push(new)?;
    }
    Ok(made)
}

/// The intervals of functions behind those before them.
pub(crate) fn push_functions(
    alloc: Global,
    intervals: &mut Vec<Interval>,
    module: &Module,
    functions: &[Function],
) -> Result<(), AllocError>
    ensures { OnOk result (intervals.new.items ≡ intervals.old.items ++ map (function_interval «module».now) functions.now) }
{
    for function in functions {
        let made = function_interval(alloc, module, function)?;
        intervals.push(made)?;
    }
    Ok(())
}
