//! What the loaded intervals have, by identifier.

ghost use Rattle.std.specs.Prelude.{◌≡◌, ◌++◌, map, IfOk, OnOk};
ghost use Rattle.std.specs.List.{flat_map};
ghost use Rattle.std.specs.Str.{bytes_eq};
ghost use Rattle.indexmap.specs.IndexMap.{get};
ghost use Rattle.ir_check.specs.Keyed.{value_at};
ghost use Rattle.ir_check.specs.Sites.{sites_in, size_entry};

use crate::index::index_of;
use crate::order::{id_of, is_code, size_of};
use crate::span::Span;
use indexmap::IndexMap;
use std::alloc::{AllocError, Global};
use uuid::Uuid;

/// A loaded block: its size, whether it is code, and its interval.
#[derive(Clone, Copy, Debug, PartialEq, Eq)]
pub(crate) struct Site {
    pub size: u64,
    pub code: bool,
    pub interval: Uuid,
}

fn add_sites(entries: &mut Vec<(Uuid, Site)>, span: &Span) -> Result<(), AllocError>
    ensures { OnOk result (entries.new.items ≡ entries.old.items ++ sites_in span.now) }
{
    for block in span.blocks.as_slice() {
        let site = Site {
            size: size_of(block),
            code: is_code(block),
            interval: span.uuid,
        };
        entries.push((id_of(block), site))?;
    }
    Ok(())
}

/// The loaded blocks.
pub(crate) fn sites_of(alloc: Global, spans: &[Span]) -> Result<IndexMap<Uuid, Site>, AllocError>
    ensures { IfOk result (λ sites. (id : _) → get bytes_eq sites id ≡ value_at bytes_eq id (flat_map sites_in spans.now)) }
{
    let mut entries = Vec::new(alloc);
    for span in spans {
        add_sites(&mut entries, span)?;
    }
    index_of(alloc, entries.as_slice())
}

/// The sizes of the loaded intervals.
pub(crate) fn interval_sizes(
    alloc: Global,
    spans: &[Span],
) -> Result<IndexMap<Uuid, u64>, AllocError>
    ensures { IfOk result (λ sizes. (id : _) → get bytes_eq sizes id ≡ value_at bytes_eq id (map size_entry spans.now)) }
{
    let mut entries = Vec::new(alloc);
    for span in spans {
        entries.push((span.uuid, span.size))?;
    }
    index_of(alloc, entries.as_slice())
}
