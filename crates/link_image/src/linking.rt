ghost use Rattle.std.specs.Prelude.{◌≡◌, ◌≤◌, ◌<◌, ◌+◌, ◌^◌, All, sum_by, IfOk};
ghost use Rattle.bare_image.specs.Valid.{image_ok};
ghost use Rattle.sym_expr.specs.Images.{image, link_fault};
ghost use Rattle.sym_expr.specs.Layouts.{accepted};
ghost use Rattle.sym_expr.specs.Placing.{shape_of, stretch_size};
ghost use Rattle.sym_expr.specs.WellMade.{well_made};
ghost use Rattle.link_image.specs.Answers.{Tells};
ghost use Rattle.link_image.specs.Ready.{HasBytes};

use crate::laws::images_are_ok;
use crate::linker::Linker;
use bare_image::Image;
use gr_base::{End, Seq};
use layout_plan::{new_size, placed_at};
use std::alloc::Global;
use sym_expr::{Layout, LinkFault, Program, Stretch};

/// The most bytes of all intervals and the stack together, 2 ^ 24.
const MOST: u64 = 16_777_216;

fn stretch_size(stretch: &Stretch) -> u64
    requires { stretch_size stretch.now < 2 ^ 62 }
    ensures { result ≡ stretch_size stretch.now }
{
    let mut end = 0;
    for piece in stretch.pieces.as_slice() {
        end = placed_at(end, piece) + new_size(piece);
    }
    end
}

/// The bytes of all intervals and of the stack.
fn total_size(program: &Program, layout: &Layout) -> u64
    requires sizes { sum_by stretch_size program.now.stretches < 2 ^ 62 }
    requires stack { layout.now.stack_size ≤ 2 ^ 24 }
    ensures { result ≡ sum_by stretch_size program.now.stretches + layout.now.stack_size }
{
    let mut total = 0;
    for stretch in program.stretches.as_slice() {
        total += stretch_size(stretch);
    }
    total + layout.stack_size
}

/// The image of a program that isn't too big.
fn linked(alloc: Global, program: &Program, layout: &Layout) -> Result<Image, End<LinkFault>>
    requires well { well_made program.now }
    requires accepted { accepted layout.now (shape_of program.now) }
    requires most { sum_by stretch_size program.now.stretches + layout.now.stack_size ≤ 2 ^ 24 }
    ensures image { IfOk result (λ made. made ≡ image program.now layout.now) }
    ensures fault { Tells result (link_fault program.now layout.now) }
    ensures small { IfOk result (λ made. All HasBytes made.segments) }
{
    let linker = Linker::new(alloc, program, layout)?;
    let segments = linker.segments(alloc)?;
    Ok(Image {
        entry: linker.point_address(&program.entry),
        stack_at: layout.stack_at,
        stack_size: layout.stack_size,
        segments: Seq::from_vec(segments),
    })
}

/// The image of a program under a layout that suits it.
pub fn link_program(
    alloc: Global,
    program: &Program,
    layout: &Layout,
) -> Result<Image, End<LinkFault>>
    requires well { well_made program.now }
    requires accepted { accepted layout.now (shape_of program.now) }
    ensures image { IfOk result (λ made. made ≡ image program.now layout.now) }
    ensures fault { Tells result (link_fault program.now layout.now) }
    ensures ok { IfOk result image_ok }
{
    images_are_ok();
    let total = total_size(program, layout);
    if total > MOST {
        return Err(End::Fault(LinkFault::TooBig(total)));
    }
    linked(alloc, program, layout)
}
