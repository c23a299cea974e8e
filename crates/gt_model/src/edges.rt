ghost use Rattle.std.specs.Prelude.{◌≡◌, IfOk};

use crate::copying::CopyIn;
use gr_base::Seq;
use std::alloc::{AllocError, Global};
use uuid::Uuid;

/// The control flow graph: its edges, and the identifiers of its vertices.
#[derive(Debug, Drop)]
pub struct Cfg {
    pub edges: Seq<Edge>,
    pub vertices: Seq<Uuid>,
}

/// An edge from one vertex to another.
#[derive(Clone, Copy, Debug, PartialEq, Eq)]
pub struct Edge {
    pub source: Uuid,
    pub target: Uuid,
    pub label: Option<Label>,
}

/// What is known of an edge. The kind is GTIRB's number: Branch 0, Call 1, Fallthrough 2, Return 3,
/// Syscall 4, Sysret 5.
#[derive(Clone, Copy, Debug, PartialEq, Eq)]
pub struct Label {
    pub conditional: bool,
    pub direct: bool,
    pub kind: i32,
}

impl CopyIn for Cfg {
    fn copy_in(&self, alloc: Global) -> Result<Cfg, AllocError> {
        Ok(Cfg {
            edges: Seq::from_slice(alloc, self.edges.as_slice())?,
            vertices: Seq::from_slice(alloc, self.vertices.as_slice())?,
        })
    }
}
