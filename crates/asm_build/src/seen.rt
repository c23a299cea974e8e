//! What is kept of the lines that were read.

ghost use Rattle.std.specs.Prelude.{◌≡◌, ◌==◌, ◌&&◌, ◌||◌, [], ℕ, List, None, IsSome, IfOk, OnOk, is_some, nat_eq};
ghost use Rattle.std.specs.HashMap.{get, get_by_text};
ghost use Rattle.std.specs.Str.{bytes_eq};
ghost use Rattle.asm_modules.specs.Faults.{ordinal_of};
ghost use Rattle.asm_modules.specs.Places.{after};
ghost use Rattle.asm_build.specs.Kept.{Sees, has_label, has_ordinal};

use asm_lines::{AsmLine, AsmName};
use asm_modules::{AsmAt, Place, after};
use indexmap::IndexMap;
use std::alloc::{AllocError, Global};
use uuid::Uuid;

/// The labels by their names, each with its ordinals.
pub(crate) type Labels = IndexMap<String, IndexMap<u64, ()>>;

/// Where the next line stands, and what stands before it.
#[derive(Drop)]
pub(crate) struct Seen {
    pub(crate) place: Place,
    pub(crate) ids: IndexMap<Uuid, ()>,
    pub(crate) labels: Labels,
    pub(crate) entry: Option<AsmAt>,
}

impl Seen {
    /// No line was read.
    pub(crate) fn none(alloc: Global) -> Seen
        ensures { Sees result [] }
    {
        Seen {
            place: Place::Ahead,
            ids: IndexMap::new(alloc),
            labels: IndexMap::new(alloc),
            entry: None,
        }
    }
}

/// Where the line behind it stands. An offset that no memory could hold counts as memory that ran out.
pub(crate) fn place_behind(place: &Place, line: &AsmLine) -> Result<Place, AllocError>
    ensures { IfOk result (λ behind. behind ≡ after place.now line.now) }
{
    after(*place, line).ok_or(AllocError)
}

pub(crate) fn ordinal_of(name: &AsmName) -> u64
    ensures { result ≡ ordinal_of name.now }
{
    name.ordinal.unwrap_or(1)
}

/// Whether the label stands before.
pub(crate) fn is_kept(labels: &Labels, name: &AsmName) -> bool
    ensures { result ≡ has_label labels.now name.now }
{
    match labels.get(name.name.as_str()) {
        Some(ordinals) => ordinals.contains_key(&ordinal_of(name)),
        None => false,
    }
}

fn first_ordinal(alloc: Global, ordinal: u64) -> Result<IndexMap<u64, ()>, AllocError>
    ensures { IfOk result (λ ordinals. (k : ℕ) → is_some (get nat_eq ordinals k) ≡ (k == ordinal)) }
{
    let mut ordinals = IndexMap::new(alloc);
    ordinals.insert(ordinal, ())?;
    Ok(ordinals)
}

/// Adds an ordinal to those of a name, of which there are some.
fn add_ordinal(labels: &mut Labels, name: &str, ordinal: u64) -> Result<(), AllocError>
    requires { IsSome (get_by_text labels.old name.now) }
    ensures { OnOk result ((q : List ℕ) (k : ℕ) → has_ordinal labels.new q k ≡ (has_ordinal labels.old q k || (bytes_eq q name.now && (k == ordinal)))) }
{
    match labels.get_mut(name) {
        Some(ordinals) => {
            ordinals.insert(ordinal, ())?;
            Ok(())
        }
        None => Ok(()),
    }
}

/// Keeps the first label of a name.
fn insert_label(
    alloc: Global,
    labels: &mut Labels,
    name: &str,
    ordinal: u64,
) -> Result<(), AllocError>
    requires { get_by_text labels.old name.now ≡ None }
    ensures { OnOk result ((q : List ℕ) (k : ℕ) → has_ordinal labels.new q k ≡ (has_ordinal labels.old q k || (bytes_eq q name.now && (k == ordinal)))) }
{
    let key = String::from_str(alloc, name)?;
    let ordinals = first_ordinal(alloc, ordinal)?;
    labels.insert(key, ordinals)?;
    Ok(())
}

/// Keeps a label.
pub(crate) fn keep(alloc: Global, labels: &mut Labels, name: &AsmName) -> Result<(), AllocError>
    ensures { OnOk result ((q : List ℕ) (k : ℕ) → has_ordinal labels.new q k ≡ (has_ordinal labels.old q k || (bytes_eq q name.now.name && (k == ordinal_of name.now)))) }
{
    let ordinal = ordinal_of(name);
    if labels.contains_key(name.name.as_str()) {
        return add_ordinal(labels, name.name.as_str(), ordinal);
    }
    insert_label(alloc, labels, name.name.as_str(), ordinal)
}
