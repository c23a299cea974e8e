//! Where symbols and the entry stand.

ghost use Rattle.std.specs.Prelude.{◌≡◌, ◌++◌, ℕ, List, IfOk, OnOk};
ghost use Rattle.std.specs.List.{flat_map};
ghost use Rattle.std.specs.Option.{option_map};
ghost use Rattle.std.specs.Str.{bytes_eq};
ghost use Rattle.indexmap.specs.IndexMap.{get};
ghost use Rattle.sym_expr.specs.Modules.{end_of, id_of, is_loaded, size_of};
ghost use Rattle.asm_print.specs.Names.{place_in, spot, spots, spots_in, value_at};

use crate::keyed::index_of;
use crate::spot::Spot;
use gt_model::{Block, Body, Interval, Module, Section};
use indexmap::IndexMap;
use std::alloc::{AllocError, Global};
use uuid::Uuid;

/// GTIRB's number of the section flag.
const LOADED: i32 = 4;

pub(crate) fn is_loaded(section: &Section) -> bool
    ensures { result ≡ is_loaded section.now }
{
    section.flags.as_slice().contains(&LOADED)
}

fn id_of(block: &Block) -> Uuid
    ensures { result ≡ id_of block.now }
{
    match block.body {
        Body::Bare => Uuid::nil(),
        Body::Code { uuid, .. } => uuid,
        Body::Data { uuid, .. } => uuid,
    }
}

fn size_of(block: &Block) -> u64
    ensures { result ≡ size_of block.now }
{
    match block.body {
        Body::Bare => 0,
        Body::Code { size, .. } => size,
        Body::Data { size, .. } => size,
    }
}

fn end_of(block: &Block) -> u128
    ensures { result ≡ end_of block.now }
{
    u128::from(block.offset) + u128::from(size_of(block))
}

fn spot(interval: &Interval, block: &Block) -> (Uuid, Spot)
    ensures { result ≡ spot interval.now block.now }
{
    let spot = Spot {
        interval: interval.uuid,
        start: u128::from(block.offset),
        end: end_of(block),
    };
    (id_of(block), spot)
}

fn add_spots(spots: &mut Vec<(Uuid, Spot)>, interval: &Interval) -> Result<(), AllocError>
    ensures { OnOk result (spots.new.items ≡ spots.old.items ++ spots_in interval.now) }
{
    for block in interval.blocks.as_slice() {
        spots.push(spot(interval, block))?;
    }
    Ok(())
}

fn add_section(spots: &mut Vec<(Uuid, Spot)>, section: &Section) -> Result<(), AllocError>
    ensures { OnOk result (spots.new.items ≡ spots.old.items ++ flat_map spots_in section.now.intervals) }
{
    for interval in section.intervals.as_slice() {
        add_spots(spots, interval)?;
    }
    Ok(())
}

fn spots(alloc: Global, module: &Module) -> Result<Vec<(Uuid, Spot)>, AllocError>
    ensures { IfOk result (λ made. made.items ≡ spots «module».now) }
{
    let mut spots = Vec::new(alloc);
    for section in module.sections.as_slice() {
        if is_loaded(section) {
            add_section(&mut spots, section)?;
        }
    }
    Ok(spots)
}

/// Where the blocks of loaded sections begin and end, by their identifiers.
pub(crate) fn spots_by_id(
    alloc: Global,
    module: &Module,
) -> Result<IndexMap<Uuid, Spot>, AllocError>
    ensures { IfOk result (λ index. (id : List ℕ) → get bytes_eq index id ≡ value_at bytes_eq id (spots «module».now)) }
{
    let spots = spots(alloc, module)?;
    let keyed = spots.as_slice();
    let index = index_of(alloc, keyed)?;
    Ok(index)
}

fn place_in(at_end: bool, spot: Spot) -> (Uuid, u128)
    ensures { result ≡ place_in at_end spot }
{
    (spot.interval, if at_end { spot.end } else { spot.start })
}

/// Where the start or the end of a block is, if it is one of a loaded section.
pub(crate) fn block_place(
    spots: &IndexMap<Uuid, Spot>,
    at_end: bool,
    id: &Uuid,
) -> Option<(Uuid, u128)>
    ensures { result ≡ option_map (place_in at_end) (get bytes_eq spots.now id.now) }
{
    match spots.get(id) {
        Some(spot) => Some(place_in(at_end, *spot)),
        None => None,
    }
}
