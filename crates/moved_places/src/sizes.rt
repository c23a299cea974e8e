//! The sizes of a module's intervals.

ghost use Rattle.std.specs.Prelude.{◌≡◌, ℕ, List, [], ◌∷◌, filter, IfOk, OnOk, Option as OptionOf, Some, None, if◌then◌else◌};
ghost use Rattle.std.specs.Option.{option_or};
ghost use Rattle.std.specs.Str.{bytes_eq};
ghost use Rattle.indexmap.specs.IndexMap.{get};
ghost use Rattle.moved_places.specs.Kept.{size_among};
ghost use Rattle.sym_expr.specs.Modules.{intervals_of, is_loaded, loaded_intervals};

use gt_model::{Module, Section};
use indexmap::IndexMap;
use std::alloc::{AllocError, Global};
use uuid::Uuid;

/// GTIRB's number of the section flag.
const LOADED: i32 = 4;

fn is_loaded(section: &Section) -> bool
    ensures { result ≡ is_loaded section.now }
{
    section.flags.as_slice().contains(&LOADED)
}

/// Keeps a value, unless one of its identifier is kept.
pub fn add_first<V: Drop>(
    map: &mut IndexMap<Uuid, V>,
    id: &Uuid,
    value: V,
) -> Result<(), AllocError>
    ensures { OnOk result ((q : List ℕ) → get bytes_eq map.new q ≡ option_or (get bytes_eq map.old q) (if bytes_eq id.now q then Some value else None)) }
{
    if map.contains_key(id) {
        return Ok(());
    }
    map.insert(*id, value)?;
    Ok(())
}

/// The sizes of the intervals of a section, behind those before it.
fn add_section(sizes: &mut IndexMap<Uuid, u64>, section: &Section) -> Result<(), AllocError>
    ensures { OnOk result ((q : List ℕ) → get bytes_eq sizes.new q ≡ option_or (get bytes_eq sizes.old q) (size_among section.now.intervals q)) }
{
    for interval in section.intervals.as_slice() {
        add_first(sizes, &interval.uuid, interval.size)?;
    }
    Ok(())
}

/// The same, if the section is loaded.
fn add_loaded(sizes: &mut IndexMap<Uuid, u64>, section: &Section) -> Result<(), AllocError>
    ensures { OnOk result ((q : List ℕ) → get bytes_eq sizes.new q ≡ option_or (get bytes_eq sizes.old q) (size_among (intervals_of (filter is_loaded (section.now ∷ []))) q)) }
{
    if !is_loaded(section) {
        return Ok(());
    }
    add_section(sizes, section)
}

/// The sizes of the loaded intervals of a module, each the first of its identifier.
pub fn interval_sizes(alloc: Global, module: &Module) -> Result<IndexMap<Uuid, u64>, AllocError>
    ensures { IfOk result (λ sizes. (q : List ℕ) → get bytes_eq sizes q ≡ size_among (loaded_intervals «module».now) q) }
{
    let mut sizes = IndexMap::new(alloc);
    for section in module.sections.as_slice() {
        add_loaded(&mut sizes, section)?;
    }
    Ok(sizes)
}
