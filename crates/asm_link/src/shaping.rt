//! What a layout of a module must find room for.

ghost use Rattle.std.specs.Prelude.{◌≡◌, ◌<◌, ◌^◌, IfOk, OnOk};
ghost use Rattle.asm_modules.specs.Valid.{asm_ok, interval_size};
ghost use Rattle.sym_expr.specs.Shapes.{IsShape};
ghost use Rattle.asm_link.specs.Shaping.{shape_asm, spot_of};

use crate::sizes::interval_size;
use asm_modules::{AsmInterval, AsmModule};
use gr_base::Seq;
use std::alloc::{AllocError, Global};
use sym_expr::{Shape, ShapeSpot};

fn spot_of(interval: &AsmInterval) -> ShapeSpot
    requires { interval_size interval.now < 2 ^ 62 }
    ensures { result ≡ spot_of interval.now }
{
    ShapeSpot {
        interval: interval.uuid,
        size: interval_size(interval),
        align: interval.align,
        residue: interval.residue,
    }
}

/// What a layout of the module must find room for.
pub fn shape_asm(alloc: Global, asm: &AsmModule) -> Result<Shape, AllocError>
    requires { asm_ok asm.now }
    ensures value { IfOk result (λ shape. shape ≡ shape_asm asm.now) }
    ensures shape { OnOk result (IsShape (shape_asm asm.now)) }
{
    let mut spots = Seq::new(alloc);
    for interval in asm.intervals.as_slice() {
        spots.push(spot_of(interval))?;
    }
    Ok(Shape { spots })
}
