//! The module of an example file that patches go into.

ghost use Rattle.std.specs.Prelude.{◌≡◌, ◌<◌, [], Ok, length, IfOk};
ghost use Rattle.gt_model.specs.Linked.{linked};
ghost use Rattle.gt_model.specs.Ordered.{ordered};
ghost use Rattle.gt_model.specs.Typed.{typed};
ghost use Rattle.ir_check.specs.declared.profile.Profile.{Profile as ProfileOf};
ghost use Rattle.ir_check.specs.Faults.{bad_places};
ghost use Rattle.ir_check.specs.Report.{checked};
ghost use Rattle.module_program.specs.Graphs.{formed_at};
ghost use Rattle.node_arena.specs.Arenas.{module_at};
ghost use Rattle.node_arena.specs.Plain.{ir_of, plain_module};
ghost use Rattle.sym_expr.specs.Modules.{loaded_intervals};

use crate::stop::Stop;
use example_files::hello;
use gt_model::Ir;
use gt_read::read_file;
use ir_check::laws::passing_modules_have_programs;
use ir_check::{CheckReport, Plain, Profile, check_program};
use node_arena::laws::modules_are_at_their_ordinals;
use node_arena::{Graph, ModuleId};
use rewritten_links::laws::passing_modules_have_no_bad_places;
use std::alloc::Global;

/// More intervals than any memory holds, 2 ^ 39.
const MANY: u64 = 549_755_813_888;

/// A graph, and a module of it.
#[derive(Drop)]
pub struct Loaded {
    pub graph: Graph,
    pub id: ModuleId,
}

/// The IR of the example with changes.
fn ir_of(alloc: Global, changes: &str) -> Result<Ir, Stop>
    ensures typed { IfOk result typed }
    ensures order { IfOk result ordered }
{
    let Ok(bytes) = hello(alloc, changes) else {
        return Err(Stop::File);
    };
    match read_file(alloc, bytes.as_slice()) {
        Ok(ir) => Ok(ir),
        Err(_) => Err(Stop::File),
    }
}

/// The graph of the example with changes.
fn graph_of(alloc: Global, changes: &str) -> Result<Graph, Stop>
    ensures typed { IfOk result (λ graph. typed (ir_of graph)) }
    ensures linked { IfOk result (λ graph. linked (ir_of graph)) }
    ensures order { IfOk result (λ graph. ordered (ir_of graph)) }
{
    let ir = ir_of(alloc, changes)?;
    match Graph::from_ir(alloc, &ir) {
        Ok(graph) => Ok(graph),
        Err(_) => Err(Stop::File),
    }
}

/// How much there is in a module that passes its checks.
fn report_of(alloc: Global, graph: &Graph, id: ModuleId) -> Result<CheckReport, Stop>
    requires { id.index < length graph.now.modules }
    ensures { IfOk result (λ report. (profile : ProfileOf) × (checked profile (ir_of graph.now) (plain_module graph.now (module_at graph.now id)) ≡ Ok report)) }
{
    let profile = Profile {
        isa: 7,
        plain: Plain::All,
    };
    match check_program(alloc, graph, id, &profile) {
        Ok(report) => Ok(report),
        Err(_) => Err(Stop::File),
    }
}

/// The first module of the example with changes, where it passes its checks.
pub fn load(alloc: Global, changes: &str) -> Result<Loaded, Stop>
    ensures live { IfOk result (λ l. l.id.index < length l.graph.modules) }
    ensures formed { IfOk result (λ l. formed_at l.graph l.id) }
    ensures placed { IfOk result (λ l. let m = plain_module l.graph (module_at l.graph l.id) in bad_places (loaded_intervals m) m.aux ≡ []) }
{
    modules_are_at_their_ordinals();
    passing_modules_have_programs();
    passing_modules_have_no_bad_places();
    let graph = graph_of(alloc, changes)?;
    let Some(id) = graph.module_at(0) else {
        return Err(Stop::File);
    };
    let report = report_of(alloc, &graph, id)?;
    // It never happens: so many intervals would not have been read.
    if report.intervals >= MANY {
        return Err(Stop::Memory);
    }
    Ok(Loaded { graph, id })
}
