ghost use Rattle.std.specs.Prelude.{◌≡◌, ◌<◌, ◌≤◌, ◌+◌, ◌*◌, ◌^◌, IfOk};
ghost use Rattle.sym_expr.specs.Shapes.{IsShape, IsShapeSpot};
ghost use Rattle.sym_expr.specs.Layouts.{default_of, least_from, next_place, IsStackSize};

use crate::placing::least_from;
use gr_base::Seq;
use std::alloc::{AllocError, Global};
use sym_expr::{Layout, PlaceAt, Shape, ShapeSpot};

/// Where the first interval may begin.
const FIRST: u64 = 65536;

/// The bytes that are left free before the stack, at least.
const GAP: u64 = 4096;

/// The bytes of the stack.
const STACK: u64 = 65536;

fn next_place(cursor: u64, spot: &ShapeSpot) -> u64
    requires cursor { cursor < 2 ^ 63 }
    requires spot { IsShapeSpot spot.now }
    ensures place { result ≡ next_place cursor spot.now }
    ensures near { result < cursor + 4096 }
{
    match spot.residue {
        Some(residue) => least_from(cursor, 4096, residue),
        None => least_from(cursor, spot.align, 0),
    }
}

/// The layout that is taken where none is given.
pub fn default_layout(alloc: Global, shape: &Shape) -> Result<Layout, AllocError>
    requires { IsShape shape.now }
    ensures default { IfOk result (λ layout. layout ≡ default_of shape.now) }
    ensures stack_size { IfOk result (λ layout. IsStackSize layout.stack_size) }
{
    let mut places = Seq::new(alloc);
    let mut cursor = FIRST;
    for spot in shape.spots.as_slice() {
        let at = next_place(cursor, spot);
        places.push(PlaceAt {
            interval: spot.interval,
            at,
        })?;
        cursor = at + spot.size;
    }
    Ok(Layout {
        places,
        stack_at: least_from(cursor + GAP, 16, 0),
        stack_size: STACK,
    })
}
