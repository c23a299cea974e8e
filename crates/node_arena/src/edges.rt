ghost use Rattle.std.specs.Prelude.{◌≡◌, ◌<◌, ◌==◌, ◌++◌, ◌∷◌, [], ℕ, length, true, false, not, Contains, All, IfOk, OnOk, OnErr, slice_index_or};
ghost use Rattle.std.specs.List.{list_any};
ghost use Rattle.node_arena.specs.declared.ids.EdgeId.{EdgeId};
ghost use Rattle.node_arena.specs.Arenas.{edge_at};
ghost use Rattle.node_arena.specs.Changes.{with_edge, without_edge, without_edges, edge_added};
ghost use Rattle.node_arena.specs.Sound.{IsVertex};

use crate::graph::Graph;
use crate::ids::{CfgEnd, EdgeId};
use crate::nodes::EdgeNode;
use gt_model::Label;
use std::alloc::{AllocError, Global};

/// Which of the first edges a list names.
fn marks_of(alloc: Global, count: usize, edges: &[EdgeId]) -> Result<Vec<bool>, AllocError>
    requires { All (λ (id : EdgeId). id.index < count) edges.now }
    ensures { IfOk result (λ marks. (k : ℕ) → slice_index_or marks.items k false ≡ list_any (λ (x : EdgeId). x.index == k) edges.now) }
{
    let mut marks = vec![in alloc; false; count]?;
    for edge in edges {
        marks[edge.index] = true;
    }
    Ok(marks)
}

fn is_marked(marks: &[bool], id: EdgeId) -> bool
    ensures { result ≡ slice_index_or marks.now id.index false }
{
    id.index < marks.len() && marks[id.index]
}

impl Graph {
    /// Lets an edge leave another vertex.
    pub fn move_edge_source(&mut self, edge: EdgeId, source: CfgEnd)
        requires edge { Contains self.old.live edge }
        requires source { IsVertex self.old source }
        ensures { let n = edge_at self.old edge in
            self.new ≡ with_edge self.old edge (record n { source = source }) }
    {
        self.arena.edges[edge.index].source = source;
    }

    /// Ends an edge. The others keep their order.
    pub fn remove_edge(&mut self, edge: EdgeId)
        requires { Contains self.old.live edge }
        ensures { self.new ≡ record self.old { live = without_edge edge self.old.live } }
    {
        self.arena.live.retain(|id| id.index != edge.index);
    }

    /// Ends all edges that a list names, in one pass. Without memory none ends.
    pub fn remove_edges(&mut self, alloc: Global, edges: &[EdgeId]) -> Result<(), AllocError>
        requires { All (Contains self.old.live) edges.now }
        ensures ok { OnOk result (self.new ≡ record self.old { live = without_edges edges.now self.old.live }) }
        ensures err { OnErr result (self.new ≡ self.old) }
    {
        let marks = marks_of(alloc, self.arena.edges.len(), edges)?;
        self.arena
            .live
            .retain(|id| !is_marked(marks.as_slice(), *id));
        Ok(())
    }

    /// Adds an edge after all others, and a cfg where there was none. Without memory nothing changes.
    pub fn add_edge(
        &mut self,
        source: CfgEnd,
        target: CfgEnd,
        label: Option<Label>,
    ) -> Result<EdgeId, AllocError>
        requires source { IsVertex self.old source }
        requires target { IsVertex self.old target }
        ensures ok { IfOk result (λ id. id.index ≡ length self.old.edges) }
        ensures added { OnOk result (self.new ≡ edge_added self.old (record { source = source; target = target; label = label })) }
        ensures err { OnErr result (self.new ≡ self.old) }
    {
        let id = EdgeId {
            index: self.arena.edges.len(),
        };
        self.arena.edges.reserve(1)?;
        self.arena.live.push(id)?;
        // There is room for it, so this never fails.
        self.arena.edges.push(EdgeNode {
            source,
            target,
            label,
        })?;
        self.arena.has_cfg = true;
        Ok(id)
    }

    /// Adds a vertex after all others, and a cfg where there was none. Without memory nothing changes.
    pub fn add_vertex(&mut self, vertex: CfgEnd) -> Result<(), AllocError>
        requires { IsVertex self.old vertex }
        ensures ok { OnOk result (self.new ≡ record self.old { vertices = self.old.vertices ++ vertex ∷ []; has_cfg = true }) }
        ensures err { OnErr result (self.new ≡ self.old) }
    {
        self.arena.vertices.push(vertex)?;
        self.arena.has_cfg = true;
        Ok(())
    }
}
