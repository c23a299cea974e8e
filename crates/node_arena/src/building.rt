ghost use Rattle.std.specs.Prelude.{◌≡◌, Some, Err, map, IfOk, OnOk};
ghost use Rattle.std.specs.Option.{option_map};
ghost use Rattle.gr_base.specs.declared.end.End.TheVariants.{Fault};
ghost use Rattle.gt_model.specs.Linked.{linked, link_fault};
ghost use Rattle.gt_model.specs.Ordered.{ordered};
ghost use Rattle.node_arena.specs.declared.fault.CheckFault.{CheckFault};
ghost use Rattle.node_arena.specs.Checking.{check_fault};
ghost use Rattle.node_arena.specs.Placing.{Drafted};
ghost use Rattle.node_arena.specs.Plain.{ir_of};
ghost use Rattle.node_arena.specs.Refs.{all_refs};
ghost use Rattle.node_arena.specs.Stored.{arenas_of, entry_of, Holds};

use crate::arena::Arena;
use crate::bare::bare_in;
use crate::checks::check_references;
use crate::draft::Draft;
use crate::fault::CheckFault;
use crate::ids::NodeRef;
use crate::index::indexed;
use crate::linking::linked;
use gr_base::End;
use gt_model::Ir;
use gt_model::laws::linked_without_fault;
use indexmap::IndexMap;
use std::alloc::{AllocError, Global};
use uuid::Uuid;

/// The index of a draft whose IR is linked, or the IR's first fault.
pub fn checked(
    alloc: Global,
    draft: &Draft,
    ir: &Ir,
) -> Result<IndexMap<Uuid, NodeRef>, End<CheckFault>>
    requires { Drafted ir.now ir.now.modules draft.now.payloads.items (arenas_of draft.now.arena) }
    ensures entries { IfOk result (λ index. index.entries ≡ map (entry_of (arenas_of draft.now.arena)) (all_refs (arenas_of draft.now.arena))) }
    ensures linked { OnOk result (linked ir.now) }
    ensures fault { (f : CheckFault) → result ≡ Err (Fault f) → option_map check_fault (link_fault ir.now) ≡ Some f }
{
    let index = indexed(alloc, &draft.arena)?;
    if let Some(id) = bare_in(ir.modules.as_slice()) {
        return Err(End::Fault(CheckFault::BareBlock(id)));
    }
    linked_without_fault();
    match check_references(&draft.arena, &index, ir) {
        Ok(()) => Ok(index),
        Err(fault) => Err(End::Fault(fault)),
    }
}

/// The arena of a draft whose IR is linked, with its references.
pub fn joined(
    alloc: Global,
    draft: Draft,
    index: &IndexMap<Uuid, NodeRef>,
    ir: &Ir,
) -> Result<Arena, AllocError>
    requires draft { Drafted ir.now ir.now.modules draft.payloads.items (arenas_of draft.arena) }
    requires entries { index.now.entries ≡ map (entry_of (arenas_of draft.arena)) (all_refs (arenas_of draft.arena)) }
    requires linked { linked ir.now }
    requires order { ordered ir.now }
    ensures holds { IfOk result (λ a. Holds a index.now) }
    ensures value { IfOk result (λ a. ir_of (arenas_of a) ≡ ir.now) }
{
    linked(alloc, draft, index, ir)
}
