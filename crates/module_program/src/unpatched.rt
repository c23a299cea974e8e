//! The program of a module as it stands.

ghost use Rattle.std.specs.Prelude.{◌≡◌, ◌<◌, length, IfOk};
ghost use Rattle.module_program.specs.Graphs.{formed_at, program_at};
ghost use Rattle.sym_expr.specs.Patches.{no_patches};
ghost use Rattle.sym_expr.specs.WellMade.{well_made};

use crate::whole::program_of;
use gr_base::Seq;
use node_arena::{Graph, ModuleId};
use std::alloc::{AllocError, Global};
use sym_expr::laws::{no_patches_fit, programs_are_well_made};
use sym_expr::{PatchTable, Program};

fn no_patches(alloc: Global) -> PatchTable
    ensures { result ≡ no_patches }
{
    PatchTable {
        inserts: Seq::new(alloc),
        functions: Seq::new(alloc),
    }
}

/// The program of a module without patches.
pub fn unpatched_program(alloc: Global, graph: &Graph, id: ModuleId) -> Result<Program, AllocError>
    requires live { id.index < length graph.now.modules }
    requires formed { formed_at graph.now id }
    ensures value { IfOk result (λ g. g ≡ program_at graph.now id) }
    ensures well { IfOk result well_made }
{
    no_patches_fit();
    programs_are_well_made();
    let none = no_patches(alloc);
    program_of(alloc, graph, id, &none)
}
