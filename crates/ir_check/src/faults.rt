//! The first thing that is wrong with the sections, intervals and blocks that are loaded.

ghost use Rattle.std.specs.Prelude.{◌≡◌, ◌<◌, length};
ghost use Rattle.std.specs.Option.{option_map};
ghost use Rattle.std.specs.Str.{bytes_eq};
ghost use Rattle.indexmap.specs.IndexMap.{get};
ghost use Rattle.node_arena.specs.Arenas.{module_at};
ghost use Rattle.node_arena.specs.Plain.{block_id};
ghost use Rattle.ir_check.specs.PartFaults.{blocks_fault, intervals_fault, is_entered_in, part_fault, sections_fault};
ghost use Rattle.ir_check.specs.Spans.{AreSections};

use crate::aims::block_id;
use crate::order::id_of;
use crate::part::LoadedPart;
use crate::span::Span;
use crate::structure::{
    block_outside, crooked_block, long_interval, overlap, thread_local, total_size,
};
use node_arena::{CheckFault, Graph, ModuleId, SectionId};

/// The most bytes that loaded intervals may have.
const MOST_BYTES: u128 = 1 << 24;

fn sections_fault(graph: &Graph, sections: &[SectionId]) -> Option<CheckFault>
    requires { AreSections graph.now sections.now }
    ensures { result ≡ sections_fault graph.now sections.now }
{
    match thread_local(graph, sections) {
        Some(section) => Some(CheckFault::ThreadLocal(section)),
        None => None,
    }
}

fn intervals_fault(spans: &[Span]) -> Option<CheckFault>
    ensures { result ≡ intervals_fault spans.now }
{
    let total = total_size(spans);
    if total > MOST_BYTES {
        return Some(CheckFault::Large(total));
    }
    match long_interval(spans) {
        Some(interval) => Some(CheckFault::ContentsLong(interval)),
        None => None,
    }
}

fn blocks_fault(spans: &[Span]) -> Option<CheckFault>
    ensures { result ≡ blocks_fault spans.now }
{
    if let Some(block) = block_outside(spans) {
        return Some(CheckFault::BlockOutside(id_of(&block)));
    }
    if let Some((first, second)) = overlap(spans) {
        return Some(CheckFault::Overlap(id_of(&first), id_of(&second)));
    }
    match crooked_block(spans) {
        Some(block) => Some(CheckFault::CodeAlign(id_of(&block))),
        None => None,
    }
}

fn is_entered(graph: &Graph, module: ModuleId, part: &LoadedPart) -> bool
    requires { «module».index < length graph.now.modules }
    ensures { result ≡ is_entered_in (get bytes_eq part.now.sites) (option_map (block_id graph.now) (module_at graph.now «module»).entry) }
{
    match graph.module(module).entry {
        None => false,
        Some(block) => part.sites.get(&block_id(graph, block)).is_some(),
    }
}

/// The first thing that is wrong with what is loaded of a module.
pub(crate) fn part_fault(graph: &Graph, module: ModuleId, part: &LoadedPart) -> Option<CheckFault>
    requires live { «module».index < length graph.now.modules }
    requires sections { AreSections graph.now part.now.sections.items }
    ensures { result ≡ part_fault graph.now «module» part.now }
{
    if let Some(fault) = sections_fault(graph, part.sections.as_slice()) {
        return Some(fault);
    }
    if let Some(fault) = intervals_fault(part.spans.as_slice()) {
        return Some(fault);
    }
    if let Some(fault) = blocks_fault(part.spans.as_slice()) {
        return Some(fault);
    }
    if !is_entered(graph, module, part) {
        return Some(CheckFault::NoEntry);
    }
    None
}
