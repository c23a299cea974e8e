use crate::children::Children;
use crate::ids::Identifier;
use gt_model::{Edge, Label};
use uuid::Uuid;

/// The draft of an edge.
#[derive(Drop)]
pub struct EdgeDraft {
    pub source: Identifier,
    pub target: Identifier,
    pub label: Option<Label>,
}

/// The draft of the control flow graph.
#[derive(Drop)]
pub struct CfgDraft {
    pub edges: Children<Edge>,
    pub vertices: Children<Uuid>,
}
