ghost use Rattle.std.specs.Prelude.{◌≡◌, OnOk};
ghost use Rattle.sym_expr.specs.Shapes.{IsShape};
ghost use Rattle.sym_expr.specs.Layouts.{accepted, IsStackSize};
ghost use Rattle.layout_plan.specs.Faults.{layout_fault};
ghost use Rattle.layout_plan.specs.Answers.{Tells};

use crate::fault::LayoutFault;
use crate::index::{check_known, index_places};
use crate::spots::{check_aligned, check_apart, check_inside, place_spots};
use gr_base::End;
use std::alloc::Global;
use sym_expr::{Layout, Shape};

/// Whether the layout is accepted for the shape. It answers every fault but `Line`.
pub fn check_layout(alloc: Global, layout: &Layout, shape: &Shape) -> Result<(), End<LayoutFault>>
    requires stack_size { IsStackSize layout.now.stack_size }
    requires shape { IsShape shape.now }
    ensures accepted { OnOk result (accepted layout.now shape.now) }
    ensures fault { Tells result (layout_fault layout.now shape.now) }
{
    check_known(alloc, shape.spots.as_slice(), layout.places.as_slice())?;
    let index = index_places(alloc, layout.places.as_slice())?;
    let spots = place_spots(alloc, &index, layout, shape)?;
    check_inside(&spots)?;
    check_aligned(&spots)?;
    check_apart(alloc, &spots)?;
    Ok(())
}
