//! Spots where a layout puts them, one by one and beside each other.

ghost use Rattle.std.specs.Prelude.{◌≡◌, ◌<◌, ◌≤◌, ◌+◌, ◌^◌, ℕ, List, All, IfOk, OnOk, not, find, filter};
ghost use Rattle.std.specs.Option.{option_copied};
ghost use Rattle.std.specs.Str.{bytes_eq};
ghost use Rattle.indexmap.specs.IndexMap.{get};
ghost use Rattle.sym_expr.specs.Layouts.{place_in, placed_spots, end_of, IsInside};
ghost use Rattle.layout_plan.specs.Faults.{missing_fault, is_inside, is_aligned, has_bytes, by_address, outside_fault, unaligned_fault, overlap_fault};
ghost use Rattle.layout_plan.specs.Answers.{Tells, TellsFault};

use crate::fault::LayoutFault;
use gr_base::End;
use indexmap::IndexMap;
use std::alloc::{AllocError, Global};
use sym_expr::{Layout, PlacedSpot, Shape, Spot};
use uuid::Uuid;

/// The least address of a spot, and the greatest of its end, 2 ^ 47.
const LOWEST: u64 = 4096;

const HIGHEST: u64 = 140_737_488_355_328;

/// The spots in module order, the stack last.
pub fn place_spots(
    alloc: Global,
    index: &IndexMap<Uuid, u64>,
    layout: &Layout,
    shape: &Shape,
) -> Result<Vec<PlacedSpot>, End<LayoutFault>>
    requires { (id : List ℕ) → get bytes_eq index.now id ≡ place_in layout.now.places id }
    ensures fault { Tells result (missing_fault layout.now.places shape.now.spots) }
    ensures spots { IfOk result (λ spots. spots.items ≡ placed_spots layout.now shape.now) }
{
    let mut spots = Vec::new(alloc);
    for spot in shape.spots.as_slice() {
        let Some(at) = index.get(&spot.interval) else {
            return Err(End::Fault(LayoutFault::Missing(spot.interval)));
        };
        spots.push(PlacedSpot {
            spot: Spot::Interval(spot.interval),
            at: *at,
            size: spot.size,
            align: spot.align,
        })?;
    }
    spots.push(PlacedSpot {
        spot: Spot::Stack,
        at: layout.stack_at,
        size: layout.stack_size,
        align: 16,
    })?;
    Ok(spots)
}

fn is_inside(x: &PlacedSpot) -> bool
    ensures { result ≡ is_inside x.now }
{
    x.at >= LOWEST && x.at <= HIGHEST && x.size <= HIGHEST - x.at
}

fn first_outside(spots: &[PlacedSpot]) -> Option<&PlacedSpot>
    ensures { option_copied result ≡ find (λ x. not (is_inside x)) spots.now }
{
    spots.iter().find(|x| !is_inside(x))
}

pub fn check_inside(spots: &[PlacedSpot]) -> Result<(), LayoutFault>
    ensures fault { TellsFault result (outside_fault spots.now) }
    ensures inside { OnOk result (All IsInside spots.now) }
{
    match first_outside(spots) {
        Some(x) => Err(LayoutFault::Outside(x.spot)),
        None => Ok(()),
    }
}

fn is_aligned(x: &PlacedSpot) -> bool
    requires { 0 < x.now.align }
    ensures { result ≡ is_aligned x.now }
{
    x.at % x.align == 0
}

fn first_unaligned(spots: &[PlacedSpot]) -> Option<&PlacedSpot>
    requires { All (λ x. 0 < x.align) spots.now }
    ensures { option_copied result ≡ find (λ x. not (is_aligned x)) spots.now }
{
    spots.iter().find(|x| !is_aligned(x))
}

pub fn check_aligned(spots: &[PlacedSpot]) -> Result<(), LayoutFault>
    requires { All (λ x. 0 < x.align) spots.now }
    ensures { TellsFault result (unaligned_fault spots.now) }
{
    match first_unaligned(spots) {
        Some(x) => Err(LayoutFault::Unaligned(x.spot)),
        None => Ok(()),
    }
}

/// The spots that aren't empty.
fn spots_with_bytes(alloc: Global, spots: &[PlacedSpot]) -> Result<Vec<PlacedSpot>, AllocError>
    ensures { IfOk result (λ some. some.items ≡ filter has_bytes spots.now) }
{
    spots.iter().filter(|x| x.size > 0).copied().collect(alloc)
}

fn sort_by_address(spots: &mut Vec<PlacedSpot>) -> Result<(), AllocError>
    ensures { OnOk result (spots.new.items ≡ by_address spots.old.items) }
{
    spots.sort_by_key(|x| x.at)?;
    Ok(())
}

fn check_neighbours(sorted: &[PlacedSpot]) -> Result<(), LayoutFault>
    requires { All IsInside sorted.now }
    ensures { TellsFault result (overlap_fault sorted.now) }
{
    let mut before: Option<PlacedSpot> = None;
    for y in sorted {
        if let Some(x) = before
            && y.at < x.at + x.size
        {
            return Err(LayoutFault::Overlap(x.spot, y.spot));
        }
        before = Some(*y);
    }
    Ok(())
}

pub fn check_apart(alloc: Global, spots: &[PlacedSpot]) -> Result<(), End<LayoutFault>>
    requires { All IsInside spots.now }
    ensures { Tells result (overlap_fault (by_address (filter has_bytes spots.now))) }
{
    let mut sorted = spots_with_bytes(alloc, spots)?;
    sort_by_address(&mut sorted)?;
    check_neighbours(&sorted)?;
    Ok(())
}
