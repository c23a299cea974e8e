//! Rewritten modules, and IRs that have them.

ghost use Rattle.std.specs.Prelude.{◌≡◌, ◌≢◌, ◌<◌, ◌^◌, ℕ, Some, AllPairs, length, position, slice_set, IfOk, OnOk};
ghost use Rattle.std.specs.Str.{bytes_eq};
ghost use Rattle.aux_tables.specs.ModuleTables.{tables_of};
ghost use Rattle.gt_model.specs.declared.modules.Module.{Module as ModuleOf};
ghost use Rattle.module_program.specs.Graphs.{formed_at, patched_at};
ghost use Rattle.node_arena.specs.Arenas.{module_at};
ghost use Rattle.node_arena.specs.Plain.{ir_of, plain_module};
ghost use Rattle.rewrite.specs.Rewritten.{rewritten, rewritten_module};
ghost use Rattle.sym_expr.specs.Program.{program as program_of};
ghost use Rattle.sym_expr.specs.TableOk.{ids_ok, new_names, table_ok};
ghost use Rattle.sym_expr.specs.WellMade.{well_made};

use crate::sections::new_sections;
use gt_model::{Ir, Module};
use new_symbols::new_symbols;
use node_arena::laws::modules_are_at_their_ordinals;
use node_arena::{Graph, ModuleId};
use std::alloc::{AllocError, Global};
use sym_expr::laws::patched_programs_are_well_made;
use sym_expr::{PatchTable, Program};
use uuid::Uuid;

/// More intervals than any memory holds, 2 ^ 39.
const MOST: usize = 549_755_813_888;

/// A plain module rewritten, of which this is the program.
fn rewritten_plain(
    alloc: Global,
    mut module: Module,
    program: &Program,
    patches: &PatchTable,
) -> Result<Module, AllocError>
    requires well { well_made program.now }
    requires program { program.now ≡ program_of «module» (tables_of «module») patches.now }
    requires distinct { AllPairs (λ a b. a ≢ b) (new_names patches.now) }
    ensures { IfOk result (λ made. made ≡ rewritten_module «module» (tables_of «module») patches.now) }
{
    let symbols = new_symbols(alloc, &module, program, patches)?;
    let sections = new_sections(alloc, &module, program, patches)?;
    module.symbols = symbols;
    module.sections = sections;
    Ok(module)
}

/// The place of the first module of an identifier.
fn place_of(modules: &[Module], uuid: Uuid) -> Option<usize>
    ensures { result ≡ position (λ (m : ModuleOf). bytes_eq m.uuid uuid) modules.now }
{
    modules.iter().position(|module| module.uuid == uuid)
}

/// The IR with this module in the place of the one of its identifier.
pub fn with_module(mut ir: Ir, module: Module) -> Ir
    ensures { (k : ℕ) → position (λ (m : ModuleOf). bytes_eq m.uuid «module».uuid) ir.modules ≡ Some k → result ≡ record ir { modules = slice_set ir.modules k «module» } }
{
    let modules = ir.modules.as_slice();
    match place_of(modules, module.uuid) {
        Some(at) => {
            ir.modules.set(at, module);
            ir
        }
        None => ir,
    }
}

/// A module of a graph rewritten, by the program of the module and its patches.
pub fn rewritten_module(
    alloc: Global,
    graph: &Graph,
    module: ModuleId,
    program: &Program,
    patches: &PatchTable,
) -> Result<Module, AllocError>
    requires live { «module».index < length graph.now.modules }
    requires formed { formed_at graph.now «module» }
    requires accepted { table_ok (plain_module graph.now (module_at graph.now «module»)) patches.now }
    requires free { ids_ok (ir_of graph.now) (plain_module graph.now (module_at graph.now «module»)) patches.now }
    requires program { program.now ≡ patched_at graph.now «module» patches.now }
    ensures value { let m = plain_module graph.now (module_at graph.now «module») in IfOk result (λ made. made ≡ rewritten_module m (tables_of m) patches.now) }
    ensures well { OnOk result (well_made program.now) }
{
    patched_programs_are_well_made();
    let count = program.stretches.len();
    if count >= MOST {
        return Err(AllocError);
    }
    let plain = graph.plain_module(alloc, module)?;
    rewritten_plain(alloc, plain, program, patches)
}

/// The IR of a graph in which a module is rewritten, by the program of the module and its patches.
pub fn rewritten_ir(
    alloc: Global,
    graph: &Graph,
    module: ModuleId,
    program: &Program,
    patches: &PatchTable,
) -> Result<Ir, AllocError>
    requires live { «module».index < length graph.now.modules }
    requires formed { formed_at graph.now «module» }
    requires accepted { table_ok (plain_module graph.now (module_at graph.now «module»)) patches.now }
    requires free { ids_ok (ir_of graph.now) (plain_module graph.now (module_at graph.now «module»)) patches.now }
    requires program { program.now ≡ patched_at graph.now «module» patches.now }
    ensures value { let m = plain_module graph.now (module_at graph.now «module») in IfOk result (λ ir. ir ≡ rewritten (ir_of graph.now) m.uuid (tables_of m) patches.now) }
    ensures well { OnOk result (well_made program.now) }
{
    modules_are_at_their_ordinals();
    let made = rewritten_module(alloc, graph, module, program, patches)?;
    let ir = graph.to_ir(alloc)?;
    Ok(with_module(ir, made))
}
