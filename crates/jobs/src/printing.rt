//! A module with its patches, as assembly text.

ghost use Rattle.std.specs.Prelude.{◌≡◌, ◌<◌, [], length, Ok, IfOk, OnOk};
ghost use Rattle.aux_types.specs.Gives.{Gives};
ghost use Rattle.gt_model.specs.Ordered.{ordered};
ghost use Rattle.gt_model.specs.Typed.{AreBytes, typed};
ghost use Rattle.ir_check.specs.Faults.{bad_places};
ghost use Rattle.module_program.specs.Graphs.{formed_at};
ghost use Rattle.node_arena.specs.Arenas.{module_at};
ghost use Rattle.node_arena.specs.Plain.{ir_of, plain_module};
ghost use Rattle.sym_expr.specs.Modules.{loaded_intervals};
ghost use Rattle.sym_expr.specs.TableOk.{table_ok};
ghost use Rattle.command_words.specs.Picked.{picked_view, InBounds};
ghost use Rattle.jobs.specs.Contents.{contents_view};
ghost use Rattle.jobs.specs.Modules.{program_module};
ghost use Rattle.jobs.specs.Printing.{text_free, text_written, Prints, PrintsIr, PrintsModule, PrintsPatched};
ghost use Rattle.jobs.specs.Stages.{Answers};

use crate::contents::Contents;
use crate::formed::load_formed;
use crate::modules::Loaded;
use crate::program::patches_in;
use crate::recode::written;
use crate::rewriting::repaired_free;
use crate::stages::read_ir;
use crate::verdict::{Finished, Refusal};
use asm_print::print_asm;
use command_words::{Picked, Role};
use gr_base::{Bytes, End};
use gt_model::Ir;
use gt_read::laws::a_file_is_typed;
use gt_write::write_file;
use std::alloc::{AllocError, Global};
use sym_expr::PatchTable;

/// What is written of a module in its graph.
fn print_loaded(alloc: Global, loaded: &Loaded) -> Result<Finished, AllocError>
    requires live { loaded.now.id.index < length loaded.now.graph.modules }
    requires formed { formed_at loaded.now.graph loaded.now.id }
    ensures { IfOk result (λ made. made ≡ text_written (plain_module loaded.now.graph (module_at loaded.now.graph loaded.now.id))) }
{
    let text = print_asm(alloc, &loaded.graph, loaded.id)?;
    written(alloc, text)
}

/// The numbers of bytes are below 256.
fn see_bytes(bytes: &[u8])
    ensures { AreBytes bytes.now }
{}

/// What can be written has values of its fields' types.
fn see_types(alloc: Global, ir: &Ir) -> Result<(), AllocError>
    requires order { ordered ir.now }
    requires version { ir.now.version < 256 }
    ensures { OnOk result (typed ir.now) }
{
    a_file_is_typed();
    let bytes = write_file(alloc, ir)?;
    see_bytes(bytes.as_slice());
    Ok(())
}

/// The module that the words ask for, in an IR that was repaired; no memory is said to be left for one
/// that has outgrown what a module may be.
fn load_repaired(alloc: Global, asked: &Picked<'_>, new: &Ir) -> Result<Loaded, AllocError>
    requires bounds { InBounds asked.now.settings }
    requires order { ordered new.now }
    requires version { new.now.version < 256 }
    ensures made { IfOk result (λ l. program_module (picked_view asked.now) new.now ≡ Ok (plain_module l.graph (module_at l.graph l.id))) }
    ensures live { IfOk result (λ l. l.id.index < length l.graph.modules) }
    ensures formed { IfOk result (λ l. formed_at l.graph l.id) }
{
    see_types(alloc, new)?;
    match load_formed(alloc, asked, new) {
        Ok(loaded) => Ok(loaded),
        Err(_) => Err(AllocError),
    }
}

/// What is written of a module with patches in it, where no identifier that they derive is taken.
fn print_free(
    alloc: Global,
    asked: &Picked<'_>,
    loaded: &Loaded,
    patches: &PatchTable,
) -> Result<Finished, End<Refusal>>
    requires bounds { InBounds asked.now.settings }
    requires live { loaded.now.id.index < length loaded.now.graph.modules }
    requires formed { formed_at loaded.now.graph loaded.now.id }
    requires placed { let m = plain_module loaded.now.graph (module_at loaded.now.graph loaded.now.id) in bad_places (loaded_intervals m) m.aux ≡ [] }
    requires version { (ir_of loaded.now.graph).version < 256 }
    requires picked { program_module (picked_view asked.now) (ir_of loaded.now.graph) ≡ Ok (plain_module loaded.now.graph (module_at loaded.now.graph loaded.now.id)) }
    requires table { table_ok (plain_module loaded.now.graph (module_at loaded.now.graph loaded.now.id)) patches.now }
    ensures { Gives (λ made. made) result (text_free (ir_of loaded.now.graph) (plain_module loaded.now.graph (module_at loaded.now.graph loaded.now.id)) patches.now) }
{
    let new = repaired_free(alloc, loaded, patches)?;
    let repaired = load_repaired(alloc, asked, &new)?;
    Ok(print_loaded(alloc, &repaired)?)
}

/// What is written of a module with the patches of a text.
fn print_patched(
    alloc: Global,
    asked: &Picked<'_>,
    loaded: &Loaded,
    text: &[u8],
) -> Result<Finished, End<Refusal>>
    requires bounds { InBounds asked.now.settings }
    requires live { loaded.now.id.index < length loaded.now.graph.modules }
    requires formed { formed_at loaded.now.graph loaded.now.id }
    requires placed { let m = plain_module loaded.now.graph (module_at loaded.now.graph loaded.now.id) in bad_places (loaded_intervals m) m.aux ≡ [] }
    requires version { (ir_of loaded.now.graph).version < 256 }
    requires picked { program_module (picked_view asked.now) (ir_of loaded.now.graph) ≡ Ok (plain_module loaded.now.graph (module_at loaded.now.graph loaded.now.id)) }
    ensures { Answers (PrintsPatched (ir_of loaded.now.graph) text.now (plain_module loaded.now.graph (module_at loaded.now.graph loaded.now.id))) result }
{
    let patches = patches_in(alloc, loaded, text)?;
    print_free(alloc, asked, loaded, &patches)
}

/// What is written of a module with the patches of a text, or of the module alone where there is none.
fn print_module(
    alloc: Global,
    asked: &Picked<'_>,
    loaded: &Loaded,
    text: &Option<Bytes>,
) -> Result<Finished, End<Refusal>>
    requires bounds { InBounds asked.now.settings }
    requires live { loaded.now.id.index < length loaded.now.graph.modules }
    requires formed { formed_at loaded.now.graph loaded.now.id }
    requires placed { let m = plain_module loaded.now.graph (module_at loaded.now.graph loaded.now.id) in bad_places (loaded_intervals m) m.aux ≡ [] }
    requires version { (ir_of loaded.now.graph).version < 256 }
    requires picked { program_module (picked_view asked.now) (ir_of loaded.now.graph) ≡ Ok (plain_module loaded.now.graph (module_at loaded.now.graph loaded.now.id)) }
    ensures { Answers (PrintsModule (ir_of loaded.now.graph) text.now (plain_module loaded.now.graph (module_at loaded.now.graph loaded.now.id))) result }
{
    match text {
        Some(text) => print_patched(alloc, asked, loaded, text.as_slice()),
        None => Ok(print_loaded(alloc, loaded)?),
    }
}

/// What is written of the module that the words ask for.
fn print_ir(
    alloc: Global,
    asked: &Picked<'_>,
    ir: &Ir,
    contents: &Contents,
) -> Result<Finished, End<Refusal>>
    requires bounds { InBounds asked.now.settings }
    requires order { ordered ir.now }
    requires values { typed ir.now }
    requires version { ir.now.version < 256 }
    ensures { Answers (PrintsIr (picked_view asked.now) (contents_view contents.now) ir.now) result }
{
    let loaded = load_formed(alloc, asked, ir)?;
    print_module(alloc, asked, &loaded, contents.of(Role::Patch))
}

/// Writes the module that the words ask for as assembly, with its patches.
pub fn print(
    alloc: Global,
    asked: &Picked<'_>,
    contents: &Contents,
) -> Result<Finished, End<Refusal>>
    requires { InBounds asked.now.settings }
    ensures { Answers (Prints (picked_view asked.now) (contents_view contents.now)) result }
{
    let ir = read_ir(alloc, contents.bytes(Role::In))?;
    print_ir(alloc, asked, &ir, contents)
}
