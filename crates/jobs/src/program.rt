//! The program that a job is about: that of a module, or of a module and the patches of a text.

ghost use Rattle.std.specs.Prelude.{◌≡◌, ◌<◌, ◌^◌, length, None, IfOk, OnOk};
ghost use Rattle.aux_tables.specs.ModuleTables.{tables_of};
ghost use Rattle.aux_types.specs.Gives.{Gives};
ghost use Rattle.edge_repair.specs.Repaired.{repaired};
ghost use Rattle.gt_model.specs.Ordered.{ordered};
ghost use Rattle.gt_model.specs.Typed.{typed};
ghost use Rattle.module_program.specs.Graphs.{formed_at, patched_in, program_at};
ghost use Rattle.node_arena.specs.Arenas.{module_at};
ghost use Rattle.node_arena.specs.Plain.{ir_of, plain_module};
ghost use Rattle.sym_expr.specs.Modules.{loaded_intervals};
ghost use Rattle.sym_expr.specs.TableOk.{ids_ok, table_ok};
ghost use Rattle.sym_expr.specs.WellMade.{well_made};
ghost use Rattle.taken_ids.specs.Faults.{id_fault};
ghost use Rattle.placed_images.specs.Typed.{IsTyped, HasNearEntries};
ghost use Rattle.jobs.specs.Programs.{patches_in, free_program, ModuleProgram, PatchedProgram, Programs};
ghost use Rattle.jobs.specs.Rewriting.{repaired_free};
ghost use Rattle.jobs.specs.Stages.{Answers};
ghost use Rattle.command_words.specs.Picked.{picked_view, InBounds};

use crate::formed::load_formed;
use crate::modules::Loaded;
use crate::verdict::Refusal;
use command_words::Picked;
use gr_base::{Bytes, End};
use gt_model::Ir;
use module_program::{program_of, unpatched_program};
use patch_table::read_patches;
use placed_images::laws::{patched_programs_are_typed, programs_are_typed};
use std::alloc::{AllocError, Global};
use sym_expr::laws::patched_programs_are_well_made;
use sym_expr::{PatchTable, Program};
use taken_ids::check_ids;

/// The patches that a text says of a module.
pub fn patches_in(alloc: Global, loaded: &Loaded, text: &[u8]) -> Result<PatchTable, End<Refusal>>
    requires live { loaded.now.id.index < length loaded.now.graph.modules }
    requires formed { formed_at loaded.now.graph loaded.now.id }
    ensures stage { Answers (patches_in text.now (plain_module loaded.now.graph (module_at loaded.now.graph loaded.now.id))) result }
    ensures table { IfOk result (table_ok (plain_module loaded.now.graph (module_at loaded.now.graph loaded.now.id))) }
{
    match read_patches(alloc, text, &loaded.graph, loaded.id) {
        Ok(patches) => Ok(patches),
        Err(End::Fault(fault)) => Err(End::Fault(Refusal::Patch(fault))),
        Err(End::Memory) => Err(End::Memory),
    }
}

/// Whether no identifier that the patches derive is taken.
pub fn are_free(alloc: Global, loaded: &Loaded, patches: &PatchTable) -> Result<(), End<Refusal>>
    requires live { loaded.now.id.index < length loaded.now.graph.modules }
    requires formed { formed_at loaded.now.graph loaded.now.id }
    requires table { table_ok (plain_module loaded.now.graph (module_at loaded.now.graph loaded.now.id)) patches.now }
    ensures made { let m = plain_module loaded.now.graph (module_at loaded.now.graph loaded.now.id) in Gives (λ _. patched_in m patches.now) result (free_program (ir_of loaded.now.graph) m patches.now) }
    ensures repaired { let m = plain_module loaded.now.graph (module_at loaded.now.graph loaded.now.id) in Gives (λ _. repaired (ir_of loaded.now.graph) m (tables_of m) patches.now) result (repaired_free (ir_of loaded.now.graph) m patches.now) }
    ensures faultless { OnOk result (id_fault (ir_of loaded.now.graph) (plain_module loaded.now.graph (module_at loaded.now.graph loaded.now.id)) patches.now ≡ None) }
    ensures free { OnOk result (ids_ok (ir_of loaded.now.graph) (plain_module loaded.now.graph (module_at loaded.now.graph loaded.now.id)) patches.now) }
{
    match check_ids(alloc, &loaded.graph, loaded.id, patches) {
        Ok(()) => Ok(()),
        Err(End::Fault(fault)) => Err(End::Fault(Refusal::Rewrite(fault))),
        Err(End::Memory) => Err(End::Memory),
    }
}

/// The program of a module and of the patches of a text.
fn patched_program(alloc: Global, loaded: &Loaded, text: &[u8]) -> Result<Program, End<Refusal>>
    requires live { loaded.now.id.index < length loaded.now.graph.modules }
    requires formed { formed_at loaded.now.graph loaded.now.id }
    requires few { length (loaded_intervals (plain_module loaded.now.graph (module_at loaded.now.graph loaded.now.id))) < 2 ^ 39 }
    ensures stage { Answers (PatchedProgram (ir_of loaded.now.graph) text.now (plain_module loaded.now.graph (module_at loaded.now.graph loaded.now.id))) result }
    ensures well { IfOk result well_made }
    ensures typed { IfOk result IsTyped }
    ensures near { IfOk result HasNearEntries }
{
    patched_programs_are_well_made();
    patched_programs_are_typed();
    let patches = patches_in(alloc, loaded, text)?;
    are_free(alloc, loaded, &patches)?;
    Ok(program_of(alloc, &loaded.graph, loaded.id, &patches)?)
}

/// The program of a module without patches.
fn plain_program(alloc: Global, loaded: &Loaded) -> Result<Program, AllocError>
    requires live { loaded.now.id.index < length loaded.now.graph.modules }
    requires formed { formed_at loaded.now.graph loaded.now.id }
    ensures made { IfOk result (λ g. g ≡ program_at loaded.now.graph loaded.now.id) }
    ensures well { IfOk result well_made }
    ensures typed { IfOk result IsTyped }
    ensures near { IfOk result HasNearEntries }
{
    programs_are_typed();
    unpatched_program(alloc, &loaded.graph, loaded.id)
}

/// The program of a module and of the patches of a text, or of the module alone where there is none.
fn program_in(alloc: Global, loaded: &Loaded, text: &Option<Bytes>) -> Result<Program, End<Refusal>>
    requires live { loaded.now.id.index < length loaded.now.graph.modules }
    requires formed { formed_at loaded.now.graph loaded.now.id }
    requires few { length (loaded_intervals (plain_module loaded.now.graph (module_at loaded.now.graph loaded.now.id))) < 2 ^ 39 }
    ensures stage { Answers (ModuleProgram (ir_of loaded.now.graph) text.now (plain_module loaded.now.graph (module_at loaded.now.graph loaded.now.id))) result }
    ensures well { IfOk result well_made }
    ensures typed { IfOk result IsTyped }
    ensures near { IfOk result HasNearEntries }
{
    match text {
        Some(text) => patched_program(alloc, loaded, text.as_slice()),
        None => Ok(plain_program(alloc, loaded)?),
    }
}

/// The program of the module that the words ask for and of the patches of a text.
pub fn load_program(
    alloc: Global,
    asked: &Picked<'_>,
    ir: &Ir,
    text: &Option<Bytes>,
) -> Result<Program, End<Refusal>>
    requires bounds { InBounds asked.now.settings }
    requires order { ordered ir.now }
    requires values { typed ir.now }
    ensures stage { Answers (Programs (picked_view asked.now) text.now ir.now) result }
    ensures well { IfOk result well_made }
    ensures typed { IfOk result IsTyped }
    ensures near { IfOk result HasNearEntries }
{
    let loaded = load_formed(alloc, asked, ir)?;
    program_in(alloc, &loaded, text)
}
