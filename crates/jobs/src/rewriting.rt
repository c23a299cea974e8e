//! Patches go into a module, and its IR is written.

ghost use Rattle.std.specs.Prelude.{◌≡◌, ◌<◌, [], length, IfOk, OnOk};
ghost use Rattle.aux_types.specs.Gives.{Gives};
ghost use Rattle.gt_model.specs.Ordered.{ordered};
ghost use Rattle.gt_model.specs.Typed.{typed};
ghost use Rattle.ir_check.specs.Faults.{bad_places};
ghost use Rattle.module_program.specs.Graphs.{formed_at};
ghost use Rattle.node_arena.specs.Arenas.{module_at};
ghost use Rattle.node_arena.specs.Plain.{ir_of, plain_module};
ghost use Rattle.sym_expr.specs.Modules.{loaded_intervals};
ghost use Rattle.sym_expr.specs.TableOk.{table_ok};
ghost use Rattle.command_words.specs.Picked.{picked_view, InBounds};
ghost use Rattle.jobs.specs.Contents.{contents_view};
ghost use Rattle.jobs.specs.Rewriting.{patches_of, repaired_free, MeansRepaired, Repairs, RepairsModule, Rewrites, RewritesFile, RewritesIr};
ghost use Rattle.jobs.specs.Stages.{Answers};

use crate::contents::Contents;
use crate::formed::load_formed;
use crate::modules::Loaded;
use crate::program::{are_free, patches_in};
use crate::recode::spelled;
use crate::stages::read_ir;
use crate::verdict::{Finished, Refusal};
use command_words::{Picked, Role};
use gr_base::{Bytes, End, Seq};
use gt_model::Ir;
use new_irs::repaired_ir;
use std::alloc::Global;
use sym_expr::PatchTable;
use sym_expr::laws::no_patches_fit;

/// The patches of a text, none where there is no text.
fn patches_of(
    alloc: Global,
    loaded: &Loaded,
    text: &Option<Bytes>,
) -> Result<PatchTable, End<Refusal>>
    requires live { loaded.now.id.index < length loaded.now.graph.modules }
    requires formed { formed_at loaded.now.graph loaded.now.id }
    ensures stage { Answers (patches_of text.now (plain_module loaded.now.graph (module_at loaded.now.graph loaded.now.id))) result }
    ensures table { IfOk result (table_ok (plain_module loaded.now.graph (module_at loaded.now.graph loaded.now.id))) }
{
    no_patches_fit();
    match text {
        Some(text) => patches_in(alloc, loaded, text.as_slice()),
        None => Ok(PatchTable {
            inserts: Seq::new(alloc),
            functions: Seq::new(alloc),
        }),
    }
}

/// The IR with patches in its module, where no identifier that they derive is taken.
pub fn repaired_free(
    alloc: Global,
    loaded: &Loaded,
    patches: &PatchTable,
) -> Result<Ir, End<Refusal>>
    requires live { loaded.now.id.index < length loaded.now.graph.modules }
    requires formed { formed_at loaded.now.graph loaded.now.id }
    requires placed { let m = plain_module loaded.now.graph (module_at loaded.now.graph loaded.now.id) in bad_places (loaded_intervals m) m.aux ≡ [] }
    requires table { table_ok (plain_module loaded.now.graph (module_at loaded.now.graph loaded.now.id)) patches.now }
    ensures made { Gives (λ new. new) result (repaired_free (ir_of loaded.now.graph) (plain_module loaded.now.graph (module_at loaded.now.graph loaded.now.id)) patches.now) }
    ensures order { IfOk result ordered }
    ensures version { IfOk result (λ new. new.version ≡ (ir_of loaded.now.graph).version) }
{
    are_free(alloc, loaded, patches)?;
    Ok(repaired_ir(alloc, &loaded.graph, loaded.id, patches)?)
}

/// The IR with the patches of a text in its module.
fn repaired_module(alloc: Global, loaded: &Loaded, text: &Option<Bytes>) -> Result<Ir, End<Refusal>>
    requires live { loaded.now.id.index < length loaded.now.graph.modules }
    requires formed { formed_at loaded.now.graph loaded.now.id }
    requires placed { let m = plain_module loaded.now.graph (module_at loaded.now.graph loaded.now.id) in bad_places (loaded_intervals m) m.aux ≡ [] }
    ensures stage { Answers (RepairsModule (ir_of loaded.now.graph) text.now (plain_module loaded.now.graph (module_at loaded.now.graph loaded.now.id))) result }
    ensures order { IfOk result ordered }
    ensures version { IfOk result (λ new. new.version ≡ (ir_of loaded.now.graph).version) }
{
    let patches = patches_of(alloc, loaded, text)?;
    repaired_free(alloc, loaded, &patches)
}

/// The IR with the patches of a text in the module that the words ask for.
fn repaired(
    alloc: Global,
    asked: &Picked<'_>,
    ir: &Ir,
    text: &Option<Bytes>,
) -> Result<Ir, End<Refusal>>
    requires bounds { InBounds asked.now.settings }
    requires order { ordered ir.now }
    requires values { typed ir.now }
    ensures stage { Answers (Repairs (picked_view asked.now) text.now ir.now) result }
    ensures order { IfOk result ordered }
    ensures version { IfOk result (λ new. new.version ≡ ir.now.version) }
{
    let loaded = load_formed(alloc, asked, ir)?;
    repaired_module(alloc, &loaded, text)
}

/// The file of the IR with the patches in the module that the words ask for.
fn rewrite_ir(
    alloc: Global,
    asked: &Picked<'_>,
    ir: &Ir,
    contents: &Contents,
) -> Result<Finished, End<Refusal>>
    requires bounds { InBounds asked.now.settings }
    requires order { ordered ir.now }
    requires values { typed ir.now }
    requires version { ir.now.version < 256 }
    ensures stage { Answers (RewritesIr (picked_view asked.now) (contents_view contents.now) ir.now) result }
    ensures means { OnOk result (MeansRepaired (picked_view asked.now) (contents_view contents.now) ir.now) }
{
    let new = repaired(alloc, asked, ir, contents.of(Role::Patch))?;
    Ok(spelled(alloc, &new)?)
}

/// Writes the file with the patches in its module.
pub fn rewrite(
    alloc: Global,
    asked: &Picked<'_>,
    contents: &Contents,
) -> Result<Finished, End<Refusal>>
    requires { InBounds asked.now.settings }
    ensures stage { Answers (Rewrites (picked_view asked.now) (contents_view contents.now)) result }
    ensures means { OnOk result (RewritesFile (picked_view asked.now) (contents_view contents.now)) }
{
    let ir = read_ir(alloc, contents.bytes(Role::In))?;
    rewrite_ir(alloc, asked, &ir, contents)
}
