//! Where intervals and labels lie, by their identifiers and names.

ghost use Rattle.std.specs.Prelude.{◌≡◌, ◌<◌, ◌^◌, ◌&&◌, ℕ, List, None, Some, IsSome, nat_eq, unwrap_or, if◌then◌else◌, IfOk, OnOk};
ghost use Rattle.std.specs.HashMap.{get_by_text};
ghost use Rattle.std.specs.List.{AllByRecursion};
ghost use Rattle.std.specs.Str.{bytes_eq};
ghost use Rattle.indexmap.specs.IndexMap.{get};
ghost use Rattle.asm_modules.specs.Faults.{ordinal_of};
ghost use Rattle.asm_modules.specs.Valid.{asm_ok, IsPlaced};
ghost use Rattle.sym_expr.specs.Layouts.{accepted, address_of, place_in};
ghost use Rattle.asm_link.specs.Kept.{kept_at, label_by, value_by, FitsBy};
ghost use Rattle.asm_link.specs.Ready.{IsReady};
ghost use Rattle.asm_link.specs.Shaping.{shape_asm};
ghost use Rattle.asm_link.specs.Values.{at_value, label_value};

use asm_lines::AsmName;
use asm_modules::{AsmAt, AsmLabel, AsmModule};
use indexmap::IndexMap;
use std::alloc::{AllocError, Global};
use sym_expr::{Layout, PlaceAt};
use uuid::Uuid;

/// The addresses of labels by their ordinals, by their names.
pub(crate) type Addresses = IndexMap<String, IndexMap<u64, u64>>;

/// A module and a layout, with the addresses of the intervals and of the labels.
#[derive(Drop)]
pub(crate) struct Index<'a> {
    pub(crate) asm: &'a AsmModule,
    pub(crate) layout: &'a Layout,
    pub(crate) places: IndexMap<Uuid, u64>,
    pub(crate) labels: Addresses,
}

/// The address of each interval. Places are put in from the last on, so that the first of an interval
/// counts.
fn index_places(alloc: Global, places: &[PlaceAt]) -> Result<IndexMap<Uuid, u64>, AllocError>
    ensures { IfOk result (λ index. (id : List ℕ) → get bytes_eq index id ≡ place_in places.now id) }
{
    let mut index = IndexMap::new(alloc);
    let mut left = places.len();
    while left > 0 {
        left -= 1;
        let place = places[left];
        index.insert(place.interval, place.at)?;
    }
    Ok(index)
}

/// The address of an interval.
fn place_of(places: &IndexMap<Uuid, u64>, id: &Uuid) -> u64
    ensures { result ≡ unwrap_or (get bytes_eq places.now id.now) 0 }
{
    places.get(id).copied().unwrap_or(0)
}

/// The address of a place.
fn address_at(places: &IndexMap<Uuid, u64>, at: AsmAt) -> u64
    requires { value_by (get bytes_eq places.now) at < 2 ^ 64 }
    ensures { result ≡ value_by (get bytes_eq places.now) at }
{
    match at {
        AsmAt::Absolute(value) => value,
        AsmAt::Inside(uuid, offset) => place_of(places, &uuid) + offset,
    }
}

/// The address of one ordinal.
fn one_address(alloc: Global, ordinal: u64, at: u64) -> Result<IndexMap<u64, u64>, AllocError>
    ensures { IfOk result (λ ordinals. (k : ℕ) → get nat_eq ordinals k ≡ if nat_eq k ordinal then Some at else None) }
{
    let mut ordinals = IndexMap::new(alloc);
    ordinals.insert(ordinal, at)?;
    Ok(ordinals)
}

/// Adds an address to those of a name, of which there are some.
fn add_address(labels: &mut Addresses, name: &str, ordinal: u64, at: u64) -> Result<(), AllocError>
    requires { IsSome (get_by_text labels.old name.now) }
    ensures { OnOk result ((q : List ℕ) (k : ℕ) → kept_at labels.new q k ≡ if bytes_eq q name.now && nat_eq k ordinal then Some at else kept_at labels.old q k) }
{
    match labels.get_mut(name) {
        Some(ordinals) => {
            ordinals.insert(ordinal, at)?;
            Ok(())
        }
        None => Ok(()),
    }
}

/// Keeps the address of the first label of a name.
fn insert_address(
    alloc: Global,
    labels: &mut Addresses,
    name: &str,
    ordinal: u64,
    at: u64,
) -> Result<(), AllocError>
    requires { get_by_text labels.old name.now ≡ None }
    ensures { OnOk result ((q : List ℕ) (k : ℕ) → kept_at labels.new q k ≡ if bytes_eq q name.now && nat_eq k ordinal then Some at else kept_at labels.old q k) }
{
    let key = String::from_str(alloc, name)?;
    let ordinals = one_address(alloc, ordinal, at)?;
    labels.insert(key, ordinals)?;
    Ok(())
}

/// Keeps the address of a label.
fn keep(alloc: Global, labels: &mut Addresses, label: &AsmLabel, at: u64) -> Result<(), AllocError>
    ensures { OnOk result ((q : List ℕ) (k : ℕ) → kept_at labels.new q k ≡ if bytes_eq q label.now.name && nat_eq k label.now.ordinal then Some at else kept_at labels.old q k) }
{
    if labels.contains_key(label.name.as_str()) {
        return add_address(labels, label.name.as_str(), label.ordinal, at);
    }
    insert_address(alloc, labels, label.name.as_str(), label.ordinal, at)
}

/// The address of each label. Labels are put in from the last on, so that the first of a name and an
/// ordinal counts.
fn index_labels(
    alloc: Global,
    places: &IndexMap<Uuid, u64>,
    labels: &[AsmLabel],
) -> Result<Addresses, AllocError>
    requires { AllByRecursion (FitsBy (get bytes_eq places.now)) labels.now }
    ensures { IfOk result (λ index. (q : List ℕ) (k : ℕ) → kept_at index q k ≡ label_by (get bytes_eq places.now) labels.now q k) }
{
    let mut index = IndexMap::new(alloc);
    let mut left = labels.len();
    while left > 0 {
        left -= 1;
        let label = &labels[left];
        keep(alloc, &mut index, label, address_at(places, label.at))?;
    }
    Ok(index)
}

/// The address that is kept of a name; one without an ordinal is the first of its name.
fn kept_address(labels: &Addresses, name: &AsmName) -> u64
    ensures { result ≡ unwrap_or (kept_at labels.now name.now.name (ordinal_of name.now)) 0 }
{
    match labels.get(name.name.as_str()) {
        Some(ordinals) => ordinals
            .get(&name.ordinal.unwrap_or(1))
            .copied()
            .unwrap_or(0),
        None => 0,
    }
}

impl<'a> Index<'a> {
    pub(crate) fn new(
        alloc: Global,
        asm: &'a AsmModule,
        layout: &'a Layout,
    ) -> Result<Index<'a>, AllocError>
        requires ok { asm_ok asm.now }
        requires accepted { accepted layout.now (shape_asm asm.now) }
        ensures ready { IfOk result IsReady }
        ensures asm { IfOk result (λ index. index.asm.now ≡ asm.now) }
        ensures layout { IfOk result (λ index. index.layout.now ≡ layout.now) }
    {
        let places = index_places(alloc, layout.places.as_slice())?;
        let labels = index_labels(alloc, &places, asm.labels.as_slice())?;
        Ok(Index {
            asm,
            layout,
            places,
            labels,
        })
    }
}

impl Index<'_> {
    pub(crate) fn interval_address(&self, id: &Uuid) -> u64
        requires { IsReady self.now }
        ensures { result ≡ address_of self.now.layout.now id.now }
    {
        place_of(&self.places, id)
    }

    /// The address of a place.
    pub(crate) fn at_value(&self, at: AsmAt) -> u64
        requires ready { IsReady self.now }
        requires placed { IsPlaced self.now.asm.now.intervals at }
        ensures { result ≡ at_value self.now.layout.now at }
    {
        address_at(&self.places, at)
    }

    /// The address of the label that a name means.
    pub(crate) fn label_value(&self, name: &AsmName) -> u64
        requires { IsReady self.now }
        ensures { result ≡ label_value self.now.layout.now self.now.asm.now.labels name.now }
    {
        kept_address(&self.labels, name)
    }
}
