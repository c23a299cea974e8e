ghost use Rattle.std.specs.Prelude.{◌<◌, IfOk};
ghost use Rattle.gt_model.specs.Ordered.{ordered};

use crate::stop::Stop;
use example_files::hello;
use gr_base::{Bytes, End};
use gt_model::Ir;
use gt_read::read_file;
use gt_write::write_file;
use node_arena::{EdgeId, Graph};
use std::alloc::{AllocError, Global};

/// A graph while actions change it, and the ids of all edges that it has or had, in the order in which they came.
#[derive(Drop)]
pub struct Trial {
    pub graph: Graph,
    pub edges: Vec<EdgeId>,
}

/// The IR of the example with changes.
fn ir_of(alloc: Global, changes: &str) -> Result<Ir, Stop>
    ensures order { IfOk result ordered }
    ensures version { IfOk result (λ ir. ir.version < 256) }
{
    let Ok(bytes) = hello(alloc, changes) else {
        return Err(Stop::Words);
    };
    match read_file(alloc, bytes.as_slice()) {
        Ok(ir) => Ok(ir),
        Err(_) => Err(Stop::Words),
    }
}

/// The file of the example with changes.
pub fn example_file(alloc: Global, changes: &str) -> Result<Bytes, Stop> {
    let ir = ir_of(alloc, changes)?;
    Ok(write_file(alloc, &ir)?)
}

/// The graph of the example with changes.
pub fn trial_of(alloc: Global, changes: &str) -> Result<Trial, Stop> {
    let ir = ir_of(alloc, changes)?;
    match Graph::from_ir(alloc, &ir) {
        Ok(graph) => {
            let edges = Vec::from_slice(alloc, graph.edges())?;
            Ok(Trial { graph, edges })
        }
        Err(End::Fault(fault)) => Err(Stop::Links(fault)),
        Err(End::Memory) => Err(Stop::Memory),
    }
}

/// The edges that words name by their places among all that there are or were.
fn named_edges(alloc: Global, all: &[EdgeId], words: &str) -> Result<Vec<EdgeId>, AllocError> {
    let mut named = Vec::new(alloc);
    for word in words.split_whitespace() {
        if let Ok(place) = word.parse::<usize>() {
            if let Some(edge) = all.get(place) {
                named.push(*edge)?;
            }
        }
    }
    Ok(named)
}

impl Trial {
    /// Keeps the id of an edge that was added, which is that of no other.
    pub fn know(&mut self, edge: EdgeId) -> Result<(), Stop> {
        if self.edges.contains(&edge) {
            return Err(Stop::GivenAgain);
        }
        match self.edges.push(edge) {
            Ok(()) => Ok(()),
            Err(_) => Err(Stop::Memory),
        }
    }

    /// The file of the graph.
    pub fn file(&self, alloc: Global) -> Result<Bytes, Stop> {
        let ir = self.graph.to_ir(alloc)?;
        if ir.version < 256 {
            Ok(write_file(alloc, &ir)?)
        } else {
            Err(Stop::Words)
        }
    }

    /// Whether the edges of the graph are those that words name, in order.
    pub fn has_edges(&self, alloc: Global, words: &str) -> Result<bool, AllocError> {
        let named = named_edges(alloc, self.edges.as_slice(), words)?;
        Ok(self.graph.edges() == named.as_slice())
    }
}
