ghost use Rattle.std.specs.Prelude.{◌≡◌, ◌<◌, ◌∷◌, [], length};
ghost use Rattle.gt_model.specs.References.{reference, suits};
ghost use Rattle.node_arena.specs.Checking.{ChecksAll, Linkable, wanted_of};
ghost use Rattle.node_arena.specs.Placing.{full_tree};
ghost use Rattle.node_arena.specs.Refs.{ref_kind};
ghost use Rattle.node_arena.specs.Sound.{Live, is_code, module_of_block};
ghost use Rattle.node_arena.specs.Stored.{arenas_of};

use crate::arena::Arena;
use crate::fault::CheckFault;
use crate::ids::{BlockId, ModuleId, NodeRef};
use gt_model::Body;
use indexmap::IndexMap;
use uuid::Uuid;

/// What a reference may name: the entry of a module, the referent of a symbol of a module, a symbol
/// of a module, and an end of an edge or a vertex.
#[derive(Clone, Copy, Debug, PartialEq, Eq)]
pub enum Wanted {
    EntryOf(ModuleId),
    ReferentOf(ModuleId),
    SymbolOf(ModuleId),
    Vertex,
}

/// The place of the module of a block.
pub fn module_of_block(arena: &Arena, id: BlockId) -> usize
    requires tree { full_tree (arenas_of arena.now) }
    requires within { id.index < length arena.now.blocks.items }
    ensures { result ≡ module_of_block (arenas_of arena.now) id }
{
    let interval = arena.blocks[id.index].interval;
    let section = arena.intervals[interval.index].section;
    arena.sections[section.index].module.index
}

fn is_code(arena: &Arena, id: BlockId) -> bool
    requires { id.index < length arena.now.blocks.items }
    ensures { result ≡ is_code (arenas_of arena.now) id }
{
    match arena.blocks[id.index].body {
        Body::Code { .. } => true,
        _ => false,
    }
}

fn suits(arena: &Arena, node: NodeRef, wanted: Wanted) -> bool
    requires tree { full_tree (arenas_of arena.now) }
    requires live { Live (arenas_of arena.now) node }
    ensures { result ≡ suits (wanted_of wanted) (ref_kind (arenas_of arena.now) node) }
{
    match wanted {
        Wanted::EntryOf(module) => match node {
            NodeRef::Block(id) => is_code(arena, id) && module.index == module_of_block(arena, id),
            _ => false,
        },
        Wanted::ReferentOf(module) => match node {
            NodeRef::Block(id) => module.index == module_of_block(arena, id),
            NodeRef::Proxy(id) => module.index == arena.proxies[id.index].module.index,
            _ => false,
        },
        Wanted::SymbolOf(module) => match node {
            NodeRef::Symbol(id) => module.index == arena.symbols[id.index].module.index,
            _ => false,
        },
        Wanted::Vertex => match node {
            NodeRef::Block(id) => is_code(arena, id),
            NodeRef::Proxy(_) => true,
            _ => false,
        },
    }
}

/// Whether a reference from a node names a node that is wanted.
pub fn check_reference(
    arena: &Arena,
    index: &IndexMap<Uuid, NodeRef>,
    from: Uuid,
    wanted: Wanted,
    to: Uuid,
) -> Result<(), CheckFault>
    requires { Linkable arena.now index.now }
    ensures { ChecksAll arena.now index.now (reference from (wanted_of wanted) to ∷ []) result }
{
    let Some(node) = index.get(&to) else {
        return Err(CheckFault::Dangling(from, to));
    };
    if suits(arena, *node, wanted) {
        Ok(())
    } else {
        Err(CheckFault::WrongKind(from, to))
    }
}
