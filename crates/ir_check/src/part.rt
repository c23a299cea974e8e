//! What is loaded of a module.

ghost use Rattle.std.specs.Prelude.{◌≡◌, ◌<◌, length, IfOk};
ghost use Rattle.std.specs.Option.{option_and_then};
ghost use Rattle.std.specs.Str.{bytes_eq};
ghost use Rattle.indexmap.specs.IndexMap.{get};
ghost use Rattle.ir_check.specs.Part.{code_size_of, is_past_in, IsPart};
ghost use Rattle.ir_check.specs.Spans.{AreSections, AreIntervals};

use crate::loaded::{intervals_of, loaded_sections};
use crate::sites::{Site, interval_sizes, sites_of};
use crate::span::Span;
use aux_codec::Place;
use indexmap::IndexMap;
use node_arena::{Graph, IntervalId, ModuleId, SectionId};
use std::alloc::{AllocError, Global};
use uuid::Uuid;

/// The loaded sections of a module, their intervals in order, and the blocks and the sizes of these
/// by identifier.
#[derive(Drop)]
pub(crate) struct LoadedPart {
    pub sections: Vec<SectionId>,
    pub intervals: Vec<IntervalId>,
    pub spans: Vec<Span>,
    pub sites: IndexMap<Uuid, Site>,
    pub sizes: IndexMap<Uuid, u64>,
}

impl LoadedPart {
    /// What is loaded of the module.
    pub(crate) fn of(
        alloc: Global,
        graph: &Graph,
        module: ModuleId,
    ) -> Result<LoadedPart, AllocError>
        requires { «module».index < length graph.now.modules }
        ensures value { IfOk result (λ part. IsPart graph.now «module» part) }
        ensures sections { IfOk result (λ part. AreSections graph.now part.sections.items) }
        ensures intervals { IfOk result (λ part. AreIntervals graph.now part.intervals.items) }
    {
        let sections = loaded_sections(alloc, graph, module)?;
        let intervals = intervals_of(alloc, graph, sections.as_slice())?;
        let spans = Span::all(alloc, graph, intervals.as_slice())?;
        let sites = sites_of(alloc, spans.as_slice())?;
        let sizes = interval_sizes(alloc, spans.as_slice())?;
        Ok(LoadedPart {
            sections,
            intervals,
            spans,
            sites,
            sizes,
        })
    }

    fn code_size(&self, id: &Uuid) -> Option<u64>
        ensures { result ≡ option_and_then code_size_of (get bytes_eq self.now.sites id.now) }
    {
        match self.sites.get(id) {
            Some(site) if site.code => Some(site.size),
            _ => None,
        }
    }

    /// Whether the Place is past the size of the loaded interval or code block that it names.
    pub(crate) fn is_past(&self, place: &Place) -> bool
        ensures { result ≡ is_past_in (get bytes_eq self.now.sizes) (get bytes_eq self.now.sites) place.now }
    {
        let size = match self.sizes.get(&place.id) {
            Some(size) => Some(*size),
            None => self.code_size(&place.id),
        };
        match size {
            Some(size) => size < place.offset,
            None => false,
        }
    }
}
