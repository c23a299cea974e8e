//! What of a module is loaded.

ghost use Rattle.std.specs.Prelude.{◌≡◌, ◌<◌, length, IfOk};
ghost use Rattle.ir_check.specs.Spans.{AreSections, AreIntervals};
ghost use Rattle.ir_check.specs.AtGraph.{flagged, loaded_ids, interval_ids};

use node_arena::{Graph, IntervalId, ModuleId, SectionId};
use std::alloc::{AllocError, Global};

/// GTIRB's numbers of section flags.
pub(crate) const LOADED: i32 = 4;

pub(crate) const THREAD_LOCAL: i32 = 6;

pub(crate) fn is_loaded(graph: &Graph, section: SectionId) -> bool
    requires { section.index < length graph.now.sections }
    ensures { result ≡ flagged graph.now 4 section }
{
    graph.section(section).flags.as_slice().contains(&LOADED)
}

pub(crate) fn is_thread_local(graph: &Graph, section: SectionId) -> bool
    requires { section.index < length graph.now.sections }
    ensures { result ≡ flagged graph.now 6 section }
{
    graph
        .section(section)
        .flags
        .as_slice()
        .contains(&THREAD_LOCAL)
}

/// The loaded sections of a module, in order.
pub(crate) fn loaded_sections(
    alloc: Global,
    graph: &Graph,
    of: ModuleId,
) -> Result<Vec<SectionId>, AllocError>
    requires { of.index < length graph.now.modules }
    ensures value { IfOk result (λ v. v.items ≡ loaded_ids graph.now of) }
    ensures live { IfOk result (λ v. AreSections graph.now v.items) }
{
    let mut loaded = Vec::new(alloc);
    for id in graph.module(of).sections.as_slice() {
        if is_loaded(graph, *id) {
            loaded.push(*id)?;
        }
    }
    Ok(loaded)
}

/// The intervals of sections, in order.
pub(crate) fn intervals_of(
    alloc: Global,
    graph: &Graph,
    sections: &[SectionId],
) -> Result<Vec<IntervalId>, AllocError>
    requires { AreSections graph.now sections.now }
    ensures value { IfOk result (λ v. v.items ≡ interval_ids graph.now sections.now) }
    ensures live { IfOk result (λ v. AreIntervals graph.now v.items) }
{
    let mut intervals = Vec::new(alloc);
    for id in sections {
        intervals.extend_from_slice(graph.section(*id).intervals.as_slice())?;
    }
    Ok(intervals)
}
