//! Checks of sections, intervals and blocks.

ghost use Rattle.std.specs.Prelude.{◌≡◌, sum_by};
ghost use Rattle.ir_check.specs.AtGraph.{thread_local_at};
ghost use Rattle.ir_check.specs.Spans.{AreSections, first_in, long_in, outside_in, overlap_in, crooked_in};
ghost use Rattle.sym_expr.specs.Linkable.{passes, is_crooked};
ghost use Rattle.std.specs.Option.{option_copied};

use crate::loaded::is_thread_local;
use crate::order::{end_of, is_code, size_of};
use crate::span::Span;
use gt_model::Block;
use node_arena::{Graph, SectionId};
use uuid::Uuid;

/// The first section that is thread-local.
pub(crate) fn thread_local(graph: &Graph, sections: &[SectionId]) -> Option<Uuid>
    requires { AreSections graph.now sections.now }
    ensures { result ≡ first_in (thread_local_at graph.now) sections.now }
{
    for id in sections {
        if is_thread_local(graph, *id) {
            return Some(graph.section(*id).uuid);
        }
    }
    None
}

/// The first interval whose contents are longer than its size.
pub(crate) fn long_interval(spans: &[Span]) -> Option<Uuid>
    ensures { result ≡ first_in long_in spans.now }
{
    for span in spans {
        if span.size < span.stored {
            return Some(span.uuid);
        }
    }
    None
}

/// The first block that passes the end of its interval.
pub(crate) fn block_outside(spans: &[Span]) -> Option<Block>
    ensures { result ≡ first_in outside_in spans.now }
{
    for span in spans {
        if let Some(block) = outside_in(span) {
            return Some(block);
        }
    }
    None
}

fn outside_in(span: &Span) -> Option<Block>
    ensures { result ≡ outside_in span.now }
{
    let size = span.size;
    span.blocks
        .as_slice()
        .iter()
        .copied()
        .find(|block| passes(size, block))
}

fn passes(size: u64, block: &Block) -> bool
    ensures { result ≡ passes size block.now }
{
    u128::from(size) < end_of(block)
}

/// The first two neighbours in block order that overlap.
pub(crate) fn overlap(spans: &[Span]) -> Option<(Block, Block)>
    ensures { result ≡ first_in overlap_in spans.now }
{
    for span in spans {
        if let Some(pair) = overlap_in(span) {
            return Some(pair);
        }
    }
    None
}

fn overlap_in(span: &Span) -> Option<(Block, Block)>
    ensures { result ≡ overlap_in span.now }
{
    let blocks = span.ordered.as_slice();
    blocks
        .iter()
        .copied()
        .zip(blocks.iter().copied().skip(1))
        .find(|(first, second)| u128::from(second.offset) < end_of(first))
}

/// The first code block that isn't made of whole words at their places.
pub(crate) fn crooked_block(spans: &[Span]) -> Option<Block>
    ensures { result ≡ first_in crooked_in spans.now }
{
    for span in spans {
        if let Some(block) = crooked_in(span) {
            return Some(block);
        }
    }
    None
}

fn crooked_in(span: &Span) -> Option<Block>
    ensures { result ≡ crooked_in span.now }
{
    span.blocks.as_slice().iter().copied().find(is_crooked)
}

fn is_crooked(block: &Block) -> bool
    ensures { result ≡ is_crooked block.now }
{
    is_code(block) && !(block.offset % 4 == 0 && size_of(block) % 4 == 0)
}

/// The bytes of all intervals.
pub(crate) fn total_size(spans: &[Span]) -> u128
    ensures { result ≡ sum_by (λ s. s.size) spans.now }
{
    let mut total = 0u128;
    for span in spans {
        total += u128::from(span.size);
    }
    total
}
