ghost use Rattle.std.specs.Prelude.{◌≡◌, IfOk, OnOk};
ghost use Rattle.aux_types.specs.Gives.{Gives};
ghost use Rattle.gt_model.specs.Ordered.{ordered};
ghost use Rattle.gt_model.specs.Typed.{typed};
ghost use Rattle.sym_expr.specs.Layouts.{accepted, IsStackSize};
ghost use Rattle.sym_expr.specs.Placing.{shape_of};
ghost use Rattle.sym_expr.specs.Shapes.{IsShape};
ghost use Rattle.sym_expr.specs.WellMade.{well_made};
ghost use Rattle.placed_images.specs.Typed.{IsTyped, HasNearEntries};
ghost use Rattle.jobs.specs.Simulated.{IsSimulated, SimulatesProgram, SimulatesIr, SimulatesFile};
ghost use Rattle.jobs.specs.Linking.{accepted_layout, laid, link_made, linked_image, LinksProgram, LinksIr, Links};
ghost use Rattle.command_words.specs.Picked.{picked_view, InBounds};
ghost use Rattle.jobs.specs.Contents.{contents_view};
ghost use Rattle.jobs.specs.Stages.{Answers};

use crate::contents::Contents;
use crate::program::load_program;
use crate::recode::written;
use crate::stages::read_ir;
use crate::verdict::{Finished, Refusal};
use bare_image::write_image;
use command_words::{Picked, Role};
use gr_base::{Bytes, End};
use gt_model::Ir;
use layout_plan::{check_layout, default_layout, program_shape, read_layout};
use link_image::link_program;
use placed_images::laws::images_simulate;
use std::alloc::Global;
use sym_expr::{Layout, Program, Shape};

/// The layout that a text gives, or the default one where there is none.
pub fn laid(alloc: Global, text: &Option<Bytes>, shape: &Shape) -> Result<Layout, End<Refusal>>
    requires { IsShape shape.now }
    ensures stage { Answers (laid text.now shape.now) result }
    ensures stack_size { IfOk result (λ layout. IsStackSize layout.stack_size) }
{
    let Some(text) = text else {
        return Ok(default_layout(alloc, shape)?);
    };
    match read_layout(alloc, text.as_slice()) {
        Ok(layout) => Ok(layout),
        Err(End::Fault(fault)) => Err(End::Fault(Refusal::Layout(fault))),
        Err(End::Memory) => Err(End::Memory),
    }
}

/// Whether the layout is accepted.
fn accepted(alloc: Global, layout: &Layout, shape: &Shape) -> Result<(), End<Refusal>>
    requires stack_size { IsStackSize layout.now.stack_size }
    requires shape { IsShape shape.now }
    ensures made { Gives (λ _. layout.now) result (accepted_layout layout.now shape.now) }
    ensures accepted { OnOk result (accepted layout.now shape.now) }
{
    match check_layout(alloc, layout, shape) {
        Ok(()) => Ok(()),
        Err(End::Fault(fault)) => Err(End::Fault(Refusal::Layout(fault))),
        Err(End::Memory) => Err(End::Memory),
    }
}

/// The image of a program under a layout that suits it, as it is written.
fn linked_image(alloc: Global, program: &Program, layout: &Layout) -> Result<Finished, End<Refusal>>
    requires well { well_made program.now }
    requires typed { IsTyped program.now }
    requires near { HasNearEntries program.now }
    requires accepted { accepted layout.now (shape_of program.now) }
    ensures made { Gives (λ made. made) result (linked_image program.now layout.now) }
    ensures simulated { OnOk result (IsSimulated program.now layout.now) }
{
    images_simulate();
    let image = match link_program(alloc, program, layout) {
        Ok(image) => image,
        Err(End::Fault(fault)) => return Err(End::Fault(Refusal::Link(fault))),
        Err(End::Memory) => return Err(End::Memory),
    };
    let bytes = write_image(alloc, &image)?;
    Ok(written(alloc, bytes)?)
}

/// The image of a program under a layout, where it is accepted.
pub fn linked(
    alloc: Global,
    program: &Program,
    shape: &Shape,
    layout: &Layout,
) -> Result<Finished, End<Refusal>>
    requires well { well_made program.now }
    requires typed { IsTyped program.now }
    requires near { HasNearEntries program.now }
    requires shape { shape.now ≡ shape_of program.now }
    requires spots { IsShape shape.now }
    requires stack_size { IsStackSize layout.now.stack_size }
    ensures made { Gives (λ made. made) result (link_made program.now layout.now) }
    ensures simulated { OnOk result (IsSimulated program.now layout.now) }
{
    accepted(alloc, layout, shape)?;
    linked_image(alloc, program, layout)
}

/// The image of a program under the layout of a text, or else the default one.
fn link_under(
    alloc: Global,
    program: &Program,
    text: &Option<Bytes>,
) -> Result<Finished, End<Refusal>>
    requires well { well_made program.now }
    requires typed { IsTyped program.now }
    requires near { HasNearEntries program.now }
    ensures stage { Answers (LinksProgram text.now program.now) result }
    ensures simulated { OnOk result (SimulatesProgram text.now program.now) }
{
    let shape = program_shape(alloc, program)?;
    let layout = laid(alloc, text, &shape)?;
    linked(alloc, program, &shape, &layout)
}

/// The image of the program that the words ask for.
fn link_ir(
    alloc: Global,
    asked: &Picked<'_>,
    ir: &Ir,
    contents: &Contents,
) -> Result<Finished, End<Refusal>>
    requires bounds { InBounds asked.now.settings }
    requires order { ordered ir.now }
    requires values { typed ir.now }
    ensures stage { Answers (LinksIr (picked_view asked.now) (contents_view contents.now) ir.now) result }
    ensures simulated { OnOk result (SimulatesIr (picked_view asked.now) (contents_view contents.now) ir.now) }
{
    let program = load_program(alloc, asked, ir, contents.of(Role::Patch))?;
    link_under(alloc, &program, contents.of(Role::Layout))
}

/// Links the program of a module and its patches to an image.
pub fn link(
    alloc: Global,
    asked: &Picked<'_>,
    contents: &Contents,
) -> Result<Finished, End<Refusal>>
    requires { InBounds asked.now.settings }
    ensures stage { Answers (Links (picked_view asked.now) (contents_view contents.now)) result }
    ensures simulated { OnOk result (SimulatesFile (picked_view asked.now) (contents_view contents.now)) }
{
    let ir = read_ir(alloc, contents.bytes(Role::In))?;
    link_ir(alloc, asked, &ir, contents)
}
