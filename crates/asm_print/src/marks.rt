//! What stands at places before their items: labels, and then the entry.

ghost use Rattle.std.specs.Prelude.{◌≡◌, ◌++◌, ℕ, List, [], if◌then◌else◌, codes, filter, unwrap_or, IfOk, OnOk};
ghost use Rattle.std.specs.List.{flat_map};
ghost use Rattle.std.specs.Str.{bytes_eq};
ghost use Rattle.indexmap.specs.IndexMap.{get};
ghost use Rattle.gt_model.specs.declared.symbols.Symbol.{Symbol as SymbolOf};
ghost use Rattle.asm_print.specs.Items.{is_at, label_line, marks_at};
ghost use Rattle.asm_print.specs.Names.{entry_place, labels_behind, payload_place, place_of, same_place, spots as spots_of, value_at};

use crate::places::{block_place, spots_by_id};
use crate::spot::Spot;
use gr_base::Bytes;
use gt_model::{Module, Payload, Symbol};
use indexmap::IndexMap;
use std::alloc::{AllocError, Global};
use uuid::Uuid;

/// Lines by the places where they stand.
pub(crate) type Lines = IndexMap<(Uuid, u128), Bytes>;

/// Adds a line behind those of its place.
fn add_line(
    alloc: Global,
    lines: &mut Lines,
    place: (Uuid, u128),
    line: &[u8],
) -> Result<(), AllocError>
    ensures { OnOk result ((q : List ℕ × ℕ) → unwrap_or (get same_place lines.new q) [] ≡ unwrap_or (get same_place lines.old q) [] ++ (if same_place place q then line.now else [])) }
{
    match lines.get_mut(&place) {
        Some(text) => text.extend_from_slice(line),
        None => {
            lines.insert(place, Bytes::from_slice(alloc, line)?)?;
            Ok(())
        }
    }
}

/// Where a symbol stands, if it stands for a block of a loaded section.
fn payload_place(
    spots: &IndexMap<Uuid, Spot>,
    module: &Module,
    at_end: bool,
    payload: Payload,
) -> Option<(Uuid, u128)>
    requires { (id : List ℕ) → get bytes_eq spots.now id ≡ value_at bytes_eq id (spots_of «module».now) }
    ensures { result ≡ payload_place «module».now at_end payload }
{
    match payload {
        Payload::Nothing => None,
        Payload::Value(_) => None,
        Payload::Referent(id) => block_place(spots, at_end, &id),
    }
}

/// The line of a label.
fn label_line(
    alloc: Global,
    labels: &IndexMap<Uuid, Bytes>,
    module: &Module,
    symbol: &Symbol,
) -> Result<Bytes, AllocError>
    requires { (id : List ℕ) → get bytes_eq labels.now id ≡ value_at bytes_eq id (labels_behind [] «module».now.symbols) }
    ensures { IfOk result (λ line. line ≡ label_line «module».now symbol.now) }
{
    let mut line = match labels.get(&symbol.uuid) {
        Some(label) => Bytes::from_slice(alloc, label.as_slice())?,
        None => Bytes::new(alloc),
    };
    line.extend_from_slice(b":\n")?;
    Ok(line)
}

/// Adds the label of a symbol at its place, if it has one.
fn add_symbol(
    alloc: Global,
    lines: &mut Lines,
    place: Option<(Uuid, u128)>,
    line: &[u8],
) -> Result<(), AllocError>
    ensures { OnOk result ((q : List ℕ × ℕ) → unwrap_or (get same_place lines.new q) [] ≡ unwrap_or (get same_place lines.old q) [] ++ (if is_at q place then line.now else [])) }
{
    match place {
        Some(place) => add_line(alloc, lines, place, line),
        None => Ok(()),
    }
}

/// The labels of all places, in the order of the symbols.
fn label_lines(
    alloc: Global,
    module: &Module,
    labels: &IndexMap<Uuid, Bytes>,
    spots: &IndexMap<Uuid, Spot>,
) -> Result<Lines, AllocError>
    requires labels { (id : List ℕ) → get bytes_eq labels.now id ≡ value_at bytes_eq id (labels_behind [] «module».now.symbols) }
    requires spots { (id : List ℕ) → get bytes_eq spots.now id ≡ value_at bytes_eq id (spots_of «module».now) }
    ensures { IfOk result (λ made. (q : List ℕ × ℕ) → unwrap_or (get same_place made q) [] ≡ flat_map (label_line «module».now) (filter (λ (s : SymbolOf). is_at q (place_of «module».now s)) «module».now.symbols)) }
{
    let mut lines = IndexMap::new(alloc);
    for symbol in module.symbols.as_slice() {
        let place = payload_place(spots, module, symbol.at_end, symbol.payload);
        let line = label_line(alloc, labels, module, symbol)?;
        add_symbol(alloc, &mut lines, place, line.as_slice())?;
    }
    Ok(lines)
}

/// Where the entry is.
fn entry_place(spots: &IndexMap<Uuid, Spot>, module: &Module) -> Option<(Uuid, u128)>
    requires { (id : List ℕ) → get bytes_eq spots.now id ≡ value_at bytes_eq id (spots_of «module».now) }
    ensures { result ≡ entry_place «module».now }
{
    match module.entry {
        Some(id) => block_place(spots, false, &id),
        None => None,
    }
}

/// What stands at each place before its item.
pub(crate) fn lines_of(
    alloc: Global,
    module: &Module,
    labels: &IndexMap<Uuid, Bytes>,
) -> Result<Lines, AllocError>
    requires { (id : List ℕ) → get bytes_eq labels.now id ≡ value_at bytes_eq id (labels_behind [] «module».now.symbols) }
    ensures { IfOk result (λ made. (q : List ℕ × ℕ) → unwrap_or (get same_place made q) [] ≡ marks_at «module».now q) }
{
    let spots = spots_by_id(alloc, module)?;
    let mut lines = label_lines(alloc, module, labels, &spots)?;
    add_symbol(alloc, &mut lines, entry_place(&spots, module), b".entry\n")?;
    Ok(lines)
}
