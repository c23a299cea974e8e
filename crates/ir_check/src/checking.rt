//! The checks of a module, one after another.

ghost use Rattle.std.specs.Prelude.{◌≡◌, ◌<◌, ◌≤◌, length, IfOk, IfErr};
ghost use Rattle.aux_types.specs.Gives.{Gives};
ghost use Rattle.node_arena.specs.Arenas.{module_at};
ghost use Rattle.node_arena.specs.Plain.{ir_of, plain_module};
ghost use Rattle.node_arena.specs.declared.fault.CheckFault.TheVariants.{NoModule};
ghost use Rattle.ir_check.specs.Report.{checked};

use crate::counting::report_of;
use crate::exprs::check_exprs;
use crate::faults::part_fault;
use crate::kind::not_a64;
use crate::part::LoadedPart;
use crate::profile::Profile;
use crate::report::CheckReport;
use crate::tables::{check_places, read_tables};
use gr_base::End;
use node_arena::{CheckFault, Graph, ModuleId};
use std::alloc::Global;

/// The number of modules, which is at most this.
fn module_count(graph: &Graph, most: u64) -> u64
    requires { length graph.now.modules ≤ most }
    ensures { result ≡ length graph.now.modules }
{
    for count in 0..most {
        if graph.module_at(count).is_none() {
            return count;
        }
    }
    most
}

/// The module of an ordinal. It takes no memory.
pub fn pick_module(graph: &Graph, k: u64) -> Result<ModuleId, CheckFault>
    ensures found { IfOk result (λ id. (k < length graph.now.modules) × (id ≡ record { index = k })) }
    ensures missing { IfErr result (λ fault. (length graph.now.modules ≤ k) × (fault ≡ NoModule (length graph.now.modules))) }
{
    match graph.module_at(k) {
        Some(id) => Ok(id),
        None => Err(CheckFault::NoModule(module_count(graph, k))),
    }
}

/// The report of a module that has a program, or the first thing that is wrong with it.
pub fn check_program(
    alloc: Global,
    graph: &Graph,
    module: ModuleId,
    profile: &Profile,
) -> Result<CheckReport, End<CheckFault>>
    requires { «module».index < length graph.now.modules }
    ensures { Gives (λ report. report) result (checked profile.now (ir_of graph.now) (plain_module graph.now (module_at graph.now «module»))) }
{
    if let Some(fault) = not_a64(graph, module, profile) {
        return Err(End::Fault(fault));
    }
    let part = LoadedPart::of(alloc, graph, module)?;
    if let Some(fault) = part_fault(graph, module, &part) {
        return Err(End::Fault(fault));
    }
    let tables = graph.module(module).aux.as_slice();
    let found = match read_tables(alloc, tables) {
        Ok(found) => found,
        Err(end) => return Err(end),
    };
    let (all, said) = found.parts(alloc);
    if let Err(end) = check_places(alloc, &part, tables, all.as_slice()) {
        return Err(end);
    }
    if let Err(end) = check_exprs(alloc, graph, module, &part, said, &profile.plain) {
        return Err(end);
    }
    let report = report_of(alloc, graph, module, all.as_slice())?;
    Ok(report)
}
