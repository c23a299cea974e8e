ghost use Rattle.std.specs.Prelude.{◌≡◌, ◌≢◌, ◌<◌, Some, Err, length, IfSome, IsNone, IfOk, OnOk};
ghost use Rattle.std.specs.Option.{SomeIff, option_map};
ghost use Rattle.gr_base.specs.declared.end.End.TheVariants.{Fault};
ghost use Rattle.gt_model.specs.Linked.{linked, link_fault};
ghost use Rattle.gt_model.specs.Ordered.{ordered};
ghost use Rattle.node_arena.specs.declared.fault.CheckFault.{CheckFault};
ghost use Rattle.node_arena.specs.declared.ids.NodeRef.{NodeRef};
ghost use Rattle.node_arena.specs.Arenas.{module_at, section_at, interval_at, block_at, symbol_at, edge_at};
ghost use Rattle.node_arena.specs.Checking.{check_fault};
ghost use Rattle.node_arena.specs.Plain.{proxy_id, ir_of, plain_module};
ghost use Rattle.node_arena.specs.Sound.{sound, Live, ref_id};

use crate::arena::Arena;
use crate::building::{checked, joined};
use crate::copies::{copy_arena, index_again};
use crate::draft::draft_of;
use crate::fault::CheckFault;
use crate::ids::{BlockId, EdgeId, IntervalId, ModuleId, NodeRef, ProxyId, SectionId, SymbolId};
use crate::laws::sound_is_linked;
use crate::nodes::{BlockNode, EdgeNode, IntervalNode, ModuleNode, SectionNode, SymbolNode};
use crate::plain::{plain_ir, plain_module};
use gr_base::End;
use gt_model::{Ir, Module};
use indexmap::IndexMap;
use std::alloc::{AllocError, Global};
use std::marker::Model;
use uuid::Uuid;

/// An IR as a graph of nodes, well linked at all times.
///
/// Contracts see it as the lists of its nodes, and `ir_of` gives the IR that these are.
#[derive(Drop)]
pub struct Graph {
    pub(crate) arena: Arena,
    pub(crate) index: IndexMap<Uuid, NodeRef>,
}

impl Model for Graph {
    ghost use Rattle.node_arena.specs.Arenas.{Arenas};

    ghost Value = { Arenas };

    ghost use Rattle.node_arena.specs.Stored.{arenas_of, Holds};

    ghost view = { λ g. arenas_of g.arena };

    ghost invariant = { λ g. Holds g.arena g.index };
}

impl Graph {
    /// The graph of an IR, or the IR's first fault of links. It is linear in the file.
    pub fn from_ir(alloc: Global, ir: &Ir) -> Result<Graph, End<CheckFault>>
        requires { ordered ir.now }
        ensures value { IfOk result (λ g. ir_of g ≡ ir.now) }
        ensures linked { OnOk result (linked ir.now) }
        ensures fault { (f : CheckFault) → result ≡ Err (Fault f) → option_map check_fault (link_fault ir.now) ≡ Some f }
    {
        let draft = draft_of(alloc, ir)?;
        let index = checked(alloc, &draft, ir)?;
        let arena = joined(alloc, draft, &index, ir)?;
        Ok(Graph { arena, index })
    }

    /// The IR of the graph. It is linear in the graph, as is `copy`.
    pub fn to_ir(&self, alloc: Global) -> Result<Ir, AllocError>
        ensures value { IfOk result (λ ir. ir ≡ ir_of self.now) }
        ensures linked { IfOk result (λ ir. linked ir) }
        ensures ordered { IfOk result (λ ir. ordered ir) }
    {
        sound_is_linked();
        plain_ir(alloc, &self.arena)
    }

    /// A module as a plain value. It is linear in the module.
    pub fn plain_module(&self, alloc: Global, id: ModuleId) -> Result<Module, AllocError>
        requires { id.index < length self.now.modules }
        ensures { IfOk result (λ m. m ≡ plain_module self.now (module_at self.now id)) }
    {
        plain_module(alloc, &self.arena, id)
    }

    /// An equal graph, in which each identifier of a node or an edge stands for the same.
    pub fn copy(&self, alloc: Global) -> Result<Graph, AllocError>
        ensures { IfOk result (λ g. g ≡ self.now) }
    {
        let arena = copy_arena(alloc, &self.arena)?;
        let index = index_again(alloc, &arena)?;
        Ok(Graph { arena, index })
    }

    /// A module. It takes no memory, as all calls that read a node.
    pub fn module(&self, id: ModuleId) -> &ModuleNode
        requires { id.index < length self.now.modules }
        ensures value { result.now ≡ module_at self.now id }
        ensures sound { sound self.now }
    {
        &self.arena.modules[id.index]
    }

    pub fn section(&self, id: SectionId) -> &SectionNode
        requires { id.index < length self.now.sections }
        ensures value { result.now ≡ section_at self.now id }
        ensures sound { sound self.now }
    {
        &self.arena.sections[id.index]
    }

    pub fn interval(&self, id: IntervalId) -> &IntervalNode
        requires { id.index < length self.now.intervals }
        ensures value { result.now ≡ interval_at self.now id }
        ensures sound { sound self.now }
    {
        &self.arena.intervals[id.index]
    }

    pub fn block(&self, id: BlockId) -> &BlockNode
        requires { id.index < length self.now.blocks }
        ensures value { result.now ≡ block_at self.now id }
        ensures sound { sound self.now }
    {
        &self.arena.blocks[id.index]
    }

    pub fn symbol(&self, id: SymbolId) -> &SymbolNode
        requires { id.index < length self.now.symbols }
        ensures value { result.now ≡ symbol_at self.now id }
        ensures sound { sound self.now }
    {
        &self.arena.symbols[id.index]
    }

    /// The identifier of a proxy block.
    pub fn proxy(&self, id: ProxyId) -> &Uuid
        requires { id.index < length self.now.proxies }
        ensures value { result.now ≡ proxy_id self.now id }
        ensures sound { sound self.now }
    {
        &self.arena.proxies[id.index].uuid
    }

    pub fn edge(&self, id: EdgeId) -> &EdgeNode
        requires { id.index < length self.now.edges }
        ensures value { result.now ≡ edge_at self.now id }
        ensures sound { sound self.now }
    {
        &self.arena.edges[id.index]
    }

    /// The live edges, in order.
    pub fn edges(&self) -> &[EdgeId]
        ensures value { result.now ≡ self.now.live }
        ensures sound { sound self.now }
    {
        self.arena.live.as_slice()
    }

    /// Whether the IR has a cfg.
    pub fn has_cfg(&self) -> bool
        ensures value { result ≡ self.now.has_cfg }
        ensures sound { sound self.now }
    {
        self.arena.has_cfg
    }

    /// The one node of an identifier.
    pub fn find(&self, id: &Uuid) -> Option<NodeRef>
        ensures some { IfSome result (λ r. Live self.now r × (ref_id self.now r ≡ id.now)) }
        ensures none { IsNone result → (r : NodeRef) → Live self.now r → ref_id self.now r ≢ id.now }
        ensures sound { sound self.now }
    {
        self.index.get(id).copied()
    }

    /// The module of an ordinal.
    pub fn module_at(&self, k: u64) -> Option<ModuleId>
        ensures value { SomeIff result (k < length self.now.modules) (record { index = k }) }
        ensures sound { sound self.now }
    {
        let index = k as usize;
        if index < self.arena.modules.len() {
            Some(ModuleId { index })
        } else {
            None
        }
    }
}
