ghost use Rattle.std.specs.Prelude.{◌≡◌, Some, None, Err, [], map, IfOk, OnOk};
ghost use Rattle.std.specs.List.{AllByRecursion};
ghost use Rattle.gr_base.specs.declared.end.End.TheVariants.{Fault};
ghost use Rattle.gt_model.specs.Linked.{repeated};
ghost use Rattle.node_arena.specs.declared.fault.CheckFault.{CheckFault};
ghost use Rattle.node_arena.specs.declared.fault.CheckFault.TheVariants as faults;
ghost use Rattle.node_arena.specs.Placing.{full_tree};
ghost use Rattle.node_arena.specs.Refs.{all_refs};
ghost use Rattle.node_arena.specs.Sound.{Live, ref_id};
ghost use Rattle.node_arena.specs.Stored.{arenas_of, Index, entry_of};

use crate::arena::Arena;
use crate::fault::CheckFault;
use crate::ids::NodeRef;
use crate::refs::all_refs;
use gr_base::End;
use gt_model::Body;
use indexmap::IndexMap;
use std::alloc::Global;
use uuid::Uuid;

/// The identifier of a node.
pub fn uuid_of(arena: &Arena, node: NodeRef) -> Uuid
    requires { Live (arenas_of arena.now) node }
    ensures { result ≡ ref_id (arenas_of arena.now) node }
{
    match node {
        NodeRef::Ir => arena.uuid,
        NodeRef::Module(id) => arena.modules[id.index].uuid,
        NodeRef::Section(id) => arena.sections[id.index].uuid,
        NodeRef::Interval(id) => arena.intervals[id.index].uuid,
        NodeRef::Symbol(id) => arena.symbols[id.index].uuid,
        NodeRef::Proxy(id) => arena.proxies[id.index].uuid,
        NodeRef::Block(id) => match arena.blocks[id.index].body {
            Body::Code { uuid, .. } | Body::Data { uuid, .. } => uuid,
            Body::Bare => unreachable!(),
        },
    }
}

/// The index of the nodes, or the first identifier that an earlier node has.
pub fn index_of(
    alloc: Global,
    arena: &Arena,
    nodes: &[NodeRef],
) -> Result<IndexMap<Uuid, NodeRef>, End<CheckFault>>
    requires { AllByRecursion (Live (arenas_of arena.now)) nodes.now }
    ensures entries { IfOk result (λ index. index.entries ≡ map (entry_of (arenas_of arena.now)) nodes.now) }
    ensures distinct { OnOk result (repeated [] (map (ref_id (arenas_of arena.now)) nodes.now) ≡ None) }
    ensures fault { (f : CheckFault) → result ≡ Err (Fault f) →
        (id : _) × (f ≡ faults.DupUuid id) × (repeated [] (map (ref_id (arenas_of arena.now)) nodes.now) ≡ Some id) }
{
    let mut index = IndexMap::new(alloc);
    for node in nodes {
        let uuid = uuid_of(arena, *node);
        if index.insert(uuid, *node)?.is_some() {
            return Err(End::Fault(CheckFault::DupUuid(uuid)));
        }
    }
    Ok(index)
}

/// The index of an arena, or the first identifier that an earlier node has.
pub fn indexed(alloc: Global, arena: &Arena) -> Result<IndexMap<Uuid, NodeRef>, End<CheckFault>>
    requires { full_tree (arenas_of arena.now) }
    ensures entries { IfOk result (λ index. index.entries ≡ map (entry_of (arenas_of arena.now)) (all_refs (arenas_of arena.now))) }
    ensures distinct { OnOk result (repeated [] (map (ref_id (arenas_of arena.now)) (all_refs (arenas_of arena.now))) ≡ None) }
    ensures fault { (f : CheckFault) → result ≡ Err (Fault f) →
        (id : _) × (f ≡ faults.DupUuid id) × (repeated [] (map (ref_id (arenas_of arena.now)) (all_refs (arenas_of arena.now))) ≡ Some id) }
{
    let nodes = all_refs(alloc, arena)?;
    index_of(alloc, arena, nodes.as_slice())
}
