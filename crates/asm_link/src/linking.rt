//! The image of a module under a layout.

ghost use Rattle.std.specs.Prelude.{◌≡◌, ◌≤◌, ◌+◌, ◌^◌, All, sum_by, IfOk};
ghost use Rattle.asm_modules.specs.Valid.{asm_ok, interval_size};
ghost use Rattle.bare_image.specs.Valid.{image_ok};
ghost use Rattle.sym_expr.specs.Layouts.{accepted};
ghost use Rattle.asm_link.specs.Answers.{Tells};
ghost use Rattle.asm_link.specs.Linked.{asm_image, asm_link_fault};
ghost use Rattle.asm_link.specs.Ready.{HasBytes};
ghost use Rattle.asm_link.specs.Shaping.{shape_asm};

use crate::index::Index;
use crate::sizes::total_size;
use asm_modules::AsmModule;
use bare_image::Image;
use gr_base::{End, Seq};
use std::alloc::Global;
use sym_expr::{Layout, LinkFault};

/// The most bytes of all intervals and the stack together, 2 ^ 24.
const MOST: u64 = 16_777_216;

/// The image of a module that isn't too big.
fn linked(alloc: Global, asm: &AsmModule, layout: &Layout) -> Result<Image, End<LinkFault>>
    requires ok { asm_ok asm.now }
    requires accepted { accepted layout.now (shape_asm asm.now) }
    requires most { sum_by interval_size asm.now.intervals + layout.now.stack_size ≤ 2 ^ 24 }
    ensures image { IfOk result (λ made. made ≡ asm_image asm.now layout.now) }
    ensures fault { Tells result (asm_link_fault asm.now layout.now) }
    ensures small { IfOk result (λ made. All HasBytes made.segments) }
{
    let index = Index::new(alloc, asm, layout)?;
    let segments = index.segments(alloc)?;
    Ok(Image {
        entry: index.at_value(asm.entry),
        stack_at: layout.stack_at,
        stack_size: layout.stack_size,
        segments: Seq::from_vec(segments),
    })
}

/// The image of a module under a layout that suits it.
pub fn link_asm(alloc: Global, asm: &AsmModule, layout: &Layout) -> Result<Image, End<LinkFault>>
    requires ok { asm_ok asm.now }
    requires accepted { accepted layout.now (shape_asm asm.now) }
    ensures image { IfOk result (λ made. made ≡ asm_image asm.now layout.now) }
    ensures fault { Tells result (asm_link_fault asm.now layout.now) }
    ensures ok { IfOk result image_ok }
{
    let total = total_size(asm, layout);
    if total > MOST {
        return Err(End::Fault(LinkFault::TooBig(total)));
    }
    linked(alloc, asm, layout)
}
