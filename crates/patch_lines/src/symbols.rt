//! Symbols by their names and identifiers.

ghost use Rattle.std.specs.Prelude.{◌≡◌, ◌++◌, [], ◌∷◌, ℕ, List, if◌then◌else◌, map, unwrap_or, None, IsSome, IfOk, OnOk};
ghost use Rattle.std.specs.HashMap.{get_by_text};
ghost use Rattle.std.specs.Option.{option_map};
ghost use Rattle.std.specs.Str.{bytes_eq};
ghost use Rattle.indexmap.specs.IndexMap.{get};
ghost use Rattle.gt_model.specs.declared.symbols.Symbol.{Symbol as SymbolOf};
ghost use Rattle.patch_lines.specs.Entries.{symbol_entry};
ghost use Rattle.patch_lines.specs.Naming.{start_of, use_at, use_with, uses_named};

use crate::keyed::index_of;
use gr_base::Seq;
use gt_model::{Payload, Symbol};
use indexmap::IndexMap;
use std::alloc::{AllocError, Global};
use uuid::Uuid;

/// What matters of a symbol where it is named: its identifier, and the block at whose start it is.
#[derive(Clone, Copy, Debug, PartialEq, Eq)]
pub struct SymbolUse {
    pub id: Uuid,
    pub start: Option<Uuid>,
}

/// The block at whose start a symbol is.
fn start_of(at_end: bool, payload: Payload) -> Option<Uuid>
    ensures { result ≡ start_of at_end payload }
{
    if at_end {
        return None;
    }
    match payload {
        Payload::Nothing => None,
        Payload::Value(_) => None,
        Payload::Referent(id) => Some(id),
    }
}

/// Adds a value behind those of its name, of which there are some.
fn push_use<T: Drop>(
    names: &mut IndexMap<String, Seq<T>>,
    name: &str,
    named: T,
) -> Result<(), AllocError>
    requires { IsSome (get_by_text names.old name.now) }
    ensures { OnOk result ((q : List ℕ) → unwrap_or (get_by_text names.new q) [] ≡ unwrap_or (get_by_text names.old q) [] ++ (if bytes_eq q name.now then named ∷ [] else [])) }
{
    match names.get_mut(name) {
        Some(uses) => {
            uses.push(named)?;
            Ok(())
        }
        None => Ok(()),
    }
}

/// Keeps the first symbol of a name.
fn insert_use(
    alloc: Global,
    names: &mut IndexMap<String, Seq<SymbolUse>>,
    name: &str,
    named: SymbolUse,
) -> Result<(), AllocError>
    requires { get_by_text names.old name.now ≡ None }
    ensures { OnOk result ((q : List ℕ) → unwrap_or (get_by_text names.new q) [] ≡ unwrap_or (get_by_text names.old q) [] ++ (if bytes_eq q name.now then named ∷ [] else [])) }
{
    let key = String::from_str(alloc, name)?;
    let uses = Seq::from_slice(alloc, &[named])?;
    names.insert(key, uses)?;
    Ok(())
}

/// Adds a symbol behind those of its name.
fn add_use(
    alloc: Global,
    names: &mut IndexMap<String, Seq<SymbolUse>>,
    name: &str,
    id: Uuid,
    start: Option<Uuid>,
) -> Result<(), AllocError>
    ensures { OnOk result ((q : List ℕ) → unwrap_or (get_by_text names.new q) [] ≡ unwrap_or (get_by_text names.old q) [] ++ (if bytes_eq q name.now then use_with id start ∷ [] else [])) }
{
    let named = SymbolUse { id, start };
    if names.contains_key(name) {
        return push_use(names, name, named);
    }
    insert_use(alloc, names, name, named)
}

/// The symbols of each name, in order.
pub(crate) fn uses_by_name(
    alloc: Global,
    symbols: &[Symbol],
) -> Result<IndexMap<String, Seq<SymbolUse>>, AllocError>
    ensures { IfOk result (λ names. (q : List ℕ) → unwrap_or (get_by_text names q) [] ≡ uses_named symbols.now q) }
{
    let mut names = IndexMap::new(alloc);
    for symbol in symbols {
        let start = start_of(symbol.at_end, symbol.payload);
        add_use(alloc, &mut names, symbol.name.as_str(), symbol.uuid, start)?;
    }
    Ok(names)
}

fn symbol_entries(alloc: Global, symbols: &[Symbol]) -> Result<Vec<(Uuid, Payload)>, AllocError>
    ensures { IfOk result (λ entries. entries.items ≡ map symbol_entry symbols.now) }
{
    let mut entries = Vec::new(alloc);
    for symbol in symbols {
        entries.push((symbol.uuid, symbol.payload))?;
    }
    Ok(entries)
}

/// What symbols stand for, by their identifiers.
pub(crate) fn payloads_by_id(
    alloc: Global,
    symbols: &[Symbol],
) -> Result<IndexMap<Uuid, Payload>, AllocError>
    ensures { IfOk result (λ index. (id : _) → get bytes_eq index id ≡ option_map (λ (s : SymbolOf). s.payload) (use_at symbols.now id)) }
{
    let entries = symbol_entries(alloc, symbols)?;
    let index = index_of(alloc, entries.as_slice())?;
    Ok(index)
}
