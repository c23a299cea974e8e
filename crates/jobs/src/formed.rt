//! The module that a job is about, where it has a program.

ghost use Rattle.std.specs.Prelude.{◌≡◌, ◌<◌, ◌^◌, [], length, IfOk};
ghost use Rattle.aux_types.specs.Gives.{Gives};
ghost use Rattle.gt_model.specs.Ordered.{ordered};
ghost use Rattle.gt_model.specs.Typed.{typed};
ghost use Rattle.ir_check.specs.Faults.{bad_places};
ghost use Rattle.module_program.specs.Graphs.{formed_at};
ghost use Rattle.node_arena.specs.Arenas.{module_at};
ghost use Rattle.node_arena.specs.Plain.{ir_of, plain_module};
ghost use Rattle.sym_expr.specs.Modules.{loaded_intervals};
ghost use Rattle.jobs.specs.Modules.{program_module};
ghost use Rattle.command_words.specs.Picked.{picked_view, InBounds};

use crate::modules::{Loaded, load};
use crate::verdict::Refusal;
use command_words::Picked;
use gr_base::End;
use gt_model::Ir;
use gt_model::laws::linked_without_fault;
use ir_check::laws::passing_modules_have_programs;
use node_arena::laws::modules_are_at_their_ordinals;
use std::alloc::Global;

/// More intervals than any memory holds, 2 ^ 39.
const MANY: u64 = 549_755_813_888;

/// The module that the words ask for, where it has a program.
pub fn load_formed(alloc: Global, asked: &Picked<'_>, ir: &Ir) -> Result<Loaded, End<Refusal>>
    requires bounds { InBounds asked.now.settings }
    requires order { ordered ir.now }
    requires values { typed ir.now }
    ensures made { Gives (λ l. plain_module l.graph (module_at l.graph l.id)) result (program_module (picked_view asked.now) ir.now) }
    ensures live { IfOk result (λ l. l.id.index < length l.graph.modules) }
    ensures same { IfOk result (λ l. ir_of l.graph ≡ ir.now) }
    ensures formed { IfOk result (λ l. formed_at l.graph l.id) }
    ensures few { IfOk result (λ l. length (loaded_intervals (plain_module l.graph (module_at l.graph l.id))) < 2 ^ 39) }
    ensures placed { IfOk result (λ l. let m = plain_module l.graph (module_at l.graph l.id) in bad_places (loaded_intervals m) m.aux ≡ []) }
{
    linked_without_fault();
    modules_are_at_their_ordinals();
    passing_modules_have_programs();
    let loaded = load(alloc, asked, ir)?;
    // It never happens: so many intervals would not have been read.
    if loaded.report.intervals >= MANY {
        return Err(End::Memory);
    }
    Ok(loaded)
}
