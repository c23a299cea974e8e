//! A loaded interval with its blocks, as the checks go over them.

ghost use Rattle.std.specs.Prelude.{◌≡◌, ◌<◌, length, map, IfOk};
ghost use Rattle.node_arena.specs.Plain.{plain_block, plain_interval};

use crate::order::in_order;
use gr_base::Seq;
use gt_model::Block;
use node_arena::{Graph, IntervalId};
use std::alloc::{AllocError, Global};
use uuid::Uuid;

/// A loaded interval: how many of its bytes are stored, and its blocks, also in block order.
#[derive(Debug, Drop)]
pub(crate) struct Span {
    pub interval: IntervalId,
    pub uuid: Uuid,
    pub size: u64,
    pub stored: u64,
    pub blocks: Seq<Block>,
    pub ordered: Seq<Block>,
}

/// The blocks of an interval, in the order of the file.
fn blocks_of(alloc: Global, graph: &Graph, id: IntervalId) -> Result<Seq<Block>, AllocError>
    requires { id.index < length graph.now.intervals }
    ensures { IfOk result (λ blocks. blocks ≡ (plain_interval graph.now id).blocks) }
{
    let mut blocks = Vec::new(alloc);
    for block in graph.interval(id).blocks.as_slice() {
        let node = graph.block(*block);
        blocks.push(Block {
            offset: node.offset,
            body: node.body,
        })?;
    }
    Ok(Seq::from_vec(blocks))
}

impl Span {
    ghost use Rattle.ir_check.specs.Spans.{span_of, AreIntervals};

    fn of(alloc: Global, graph: &Graph, id: IntervalId) -> Result<Span, AllocError>
        requires { id.index < length graph.now.intervals }
        ensures { IfOk result (λ span. span ≡ span_of graph.now id) }
    {
        let blocks = blocks_of(alloc, graph, id)?;
        let ordered = in_order(alloc, blocks.as_slice())?;
        let node = graph.interval(id);
        Ok(Span {
            interval: id,
            uuid: node.uuid,
            size: node.size,
            stored: node.contents.len() as u64,
            blocks,
            ordered,
        })
    }

    /// The intervals of these identifiers.
    pub(crate) fn all(
        alloc: Global,
        graph: &Graph,
        ids: &[IntervalId],
    ) -> Result<Vec<Span>, AllocError>
        requires { AreIntervals graph.now ids.now }
        ensures { IfOk result (λ spans. spans.items ≡ map (span_of graph.now) ids.now) }
    {
        let mut spans = Vec::new(alloc);
        for id in ids {
            spans.push(Span::of(alloc, graph, *id)?)?;
        }
        Ok(spans)
    }
}
