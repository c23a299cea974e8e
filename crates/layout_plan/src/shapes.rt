ghost use Rattle.std.specs.Prelude.{◌≡◌, ◌<◌, ◌^◌, IfOk, OnOk};
ghost use Rattle.sym_expr.specs.Placing.{residue_of, shape_of, spot_of, stretch_size};
ghost use Rattle.sym_expr.specs.Shapes.{IsShape};
ghost use Rattle.sym_expr.specs.WellMade.{well_made};

use crate::laws;
use crate::placing::{needed, new_size, placed_at};
use gr_base::Seq;
use std::alloc::{AllocError, Global};
use sym_expr::{Program, Shape, ShapeSpot, Stretch};

/// The bytes of a page, in which an interval keeps its place.
const PAGE: u64 = 4096;

fn residue_of(align: u64, address: Option<u64>) -> Option<u64>
    requires { 0 < align }
    ensures { result ≡ residue_of align address }
{
    match address {
        Some(at) if at % align == 0 => Some(at % PAGE),
        _ => None,
    }
}

/// What an interval needs, its pieces one behind the other.
fn spot_of(stretch: &Stretch) -> ShapeSpot
    requires { stretch_size stretch.now < 2 ^ 62 }
    ensures { result ≡ spot_of stretch.now }
{
    let mut end = 0;
    let mut align = 1;
    for piece in stretch.pieces.as_slice() {
        let at = placed_at(end, piece);
        align = align.max(needed(at, piece));
        end = at + new_size(piece);
    }
    ShapeSpot {
        interval: stretch.id,
        size: end,
        align,
        residue: residue_of(align, stretch.address),
    }
}

/// What a layout of the program must find room for.
pub fn program_shape(alloc: Global, program: &Program) -> Result<Shape, AllocError>
    requires { well_made program.now }
    ensures value { IfOk result (λ shape. shape ≡ shape_of program.now) }
    ensures shape { OnOk result (IsShape (shape_of program.now)) }
{
    laws::shapes_of_programs();
    let mut spots = Seq::new(alloc);
    for stretch in program.stretches.as_slice() {
        spots.push(spot_of(stretch))?;
    }
    Ok(Shape { spots })
}
