//! The runs of modules beside their patches.

ghost use Rattle.std.specs.Prelude.{◌≡◌, ◌≤◌, ◌<◌, ◌^◌, length, IfOk};
ghost use Rattle.module_program.specs.Graphs.{formed_at, patched_at};
ghost use Rattle.node_arena.specs.Arenas.{module_at};
ghost use Rattle.node_arena.specs.Plain.{ir_of, plain_module};
ghost use Rattle.sym_expr.specs.Modules.{loaded_intervals};
ghost use Rattle.sym_expr.specs.TableOk.{ids_ok, table_ok};
ghost use Rattle.sym_expr.specs.WellMade.{well_made};
ghost use Rattle.sym_run.specs.Run.{sym_run};

use crate::machine::SymMachine;
use crate::program_run::run_program;
use crate::report::SymReport;
use module_program::program_of;
use node_arena::{Graph, ModuleId};
use std::alloc::{AllocError, Global};
use sym_expr::laws::patched_programs_are_well_made;
use sym_expr::{PatchTable, Program};

/// The program of a module and of patches that it can take, whose identifiers no node has.
fn patched_program(
    alloc: Global,
    graph: &Graph,
    id: ModuleId,
    patches: &PatchTable,
) -> Result<Program, AllocError>
    requires live { id.index < length graph.now.modules }
    requires formed { formed_at graph.now id }
    requires few { length (loaded_intervals (plain_module graph.now (module_at graph.now id))) < 2 ^ 39 }
    requires table { table_ok (plain_module graph.now (module_at graph.now id)) patches.now }
    requires free { ids_ok (ir_of graph.now) (plain_module graph.now (module_at graph.now id)) patches.now }
    ensures value { IfOk result (λ g. g ≡ patched_at graph.now id patches.now) }
    ensures well { IfOk result well_made }
{
    patched_programs_are_well_made();
    program_of(alloc, graph, id, patches)
}

/// Runs a module beside its patches for so many instructions, or fewer where the run ends before. The module's own bytes
/// are never rewritten.
pub fn run_symbolic(
    alloc: Global,
    graph: &Graph,
    id: ModuleId,
    patches: &PatchTable,
    stack: u64,
    input: &[u8],
    steps: u64,
) -> Result<SymReport, AllocError>
    requires live { id.index < length graph.now.modules }
    requires formed { formed_at graph.now id }
    requires few { length (loaded_intervals (plain_module graph.now (module_at graph.now id))) < 2 ^ 39 }
    requires table { table_ok (plain_module graph.now (module_at graph.now id)) patches.now }
    requires free { ids_ok (ir_of graph.now) (plain_module graph.now (module_at graph.now id)) patches.now }
    requires stack { stack ≤ 2 ^ 24 }
    requires steps { steps ≤ 10000000 }
    ensures { IfOk result (λ report. report ≡ sym_run (patched_at graph.now id patches.now) stack input.now steps) }
{
    let program = patched_program(alloc, graph, id, patches)?;
    run_program(alloc, program, stack, input, steps)
}

impl<'a> SymMachine<'a> {
    /// The machine before the first instruction of a module beside its patches, with a stack of so many bytes.
    pub fn open(
        alloc: Global,
        graph: &Graph,
        id: ModuleId,
        patches: &PatchTable,
        stack: u64,
        input: &'a [u8],
    ) -> Result<SymMachine<'a>, AllocError>
        requires live { id.index < length graph.now.modules }
        requires formed { formed_at graph.now id }
        requires few { length (loaded_intervals (plain_module graph.now (module_at graph.now id))) < 2 ^ 39 }
        requires table { table_ok (plain_module graph.now (module_at graph.now id)) patches.now }
        requires free { ids_ok (ir_of graph.now) (plain_module graph.now (module_at graph.now id)) patches.now }
        requires stack { stack ≤ 2 ^ 24 }
        ensures { IfOk result (λ machine. machine ≡ record { program = patched_at graph.now id patches.now; stack = stack; input = input.now; count = 0 }) }
    {
        let program = patched_program(alloc, graph, id, patches)?;
        SymMachine::over(alloc, program, stack, input)
    }
}
