//! The job that runs a module's program without making an address a number.

ghost use Rattle.std.specs.Prelude.{◌≡◌, ◌≤◌, IfOk};
ghost use Rattle.aux_types.specs.Gives.{Gives};
ghost use Rattle.gt_model.specs.Ordered.{ordered};
ghost use Rattle.gt_model.specs.Typed.{typed};
ghost use Rattle.sym_expr.specs.Layouts.{IsStackSize};
ghost use Rattle.sym_expr.specs.Placing.{shape_of};
ghost use Rattle.sym_expr.specs.Shapes.{IsShape};
ghost use Rattle.sym_expr.specs.WellMade.{well_made};
ghost use Rattle.placed_images.specs.Typed.{IsTyped, HasNearEntries};
ghost use Rattle.sym_run.specs.Run.{sym_run};
ghost use Rattle.command_words.specs.Picked.{picked_view, InBounds};
ghost use Rattle.jobs.specs.Contents.{contents_view};
ghost use Rattle.jobs.specs.Sim.{simulated, sim_made, SimsProgram, SimsIr, Sims};
ghost use Rattle.jobs.specs.Stages.{Answers};

use crate::contents::Contents;
use crate::link::{laid, linked};
use crate::program::load_program;
use crate::stages::read_ir;
use crate::verdict::{Finished, Refusal};
use command_words::{Picked, Role};
use gr_base::{Bytes, End, Text};
use gt_model::Ir;
use layout_plan::program_shape;
use note_texts::sim_note;
use std::alloc::{AllocError, Global};
use sym_expr::{Layout, Program, Shape};
use sym_run::run_program;

/// The output of a symbolic run, and the text that says where it stands.
fn simulated(
    alloc: Global,
    program: Program,
    stack: u64,
    input: &[u8],
    steps: u64,
) -> Result<Finished, AllocError>
    requires program { well_made program }
    requires stack { IsStackSize stack }
    requires steps { steps ≤ 10000000 }
    ensures { IfOk result (λ made. made ≡ simulated (sym_run program stack input.now steps)) }
{
    let report = run_program(alloc, program, stack, input, steps)?;
    let text = sim_note(alloc, &report)?;
    Ok(Finished {
        text: Text::from_string(text),
        out: Some(report.output),
    })
}

/// The symbolic run of a program that can be linked under a layout.
fn sim_under(
    alloc: Global,
    program: Program,
    shape: &Shape,
    layout: &Layout,
    input: &[u8],
    steps: u64,
) -> Result<Finished, End<Refusal>>
    requires program { well_made program }
    requires typed { IsTyped program }
    requires near { HasNearEntries program }
    requires shape { shape.now ≡ shape_of program }
    requires spots { IsShape shape.now }
    requires stack_size { IsStackSize layout.now.stack_size }
    requires steps { steps ≤ 10000000 }
    ensures { Gives (λ made. made) result (sim_made program layout.now input.now steps) }
{
    linked(alloc, &program, shape, layout)?;
    Ok(simulated(alloc, program, layout.stack_size, input, steps)?)
}

/// The symbolic run of a program beside the layout of a text, or else the default one.
fn sim_program(
    alloc: Global,
    program: Program,
    text: &Option<Bytes>,
    input: &[u8],
    steps: u64,
) -> Result<Finished, End<Refusal>>
    requires program { well_made program }
    requires typed { IsTyped program }
    requires near { HasNearEntries program }
    requires steps { steps ≤ 10000000 }
    ensures { Answers (SimsProgram text.now input.now steps program) result }
{
    let shape = program_shape(alloc, &program)?;
    let layout = laid(alloc, text, &shape)?;
    sim_under(alloc, program, &shape, &layout, input, steps)
}

/// The symbolic run of the program that the words ask for.
fn sim_ir(
    alloc: Global,
    asked: &Picked<'_>,
    ir: &Ir,
    contents: &Contents,
) -> Result<Finished, End<Refusal>>
    requires bounds { InBounds asked.now.settings }
    requires order { ordered ir.now }
    requires values { typed ir.now }
    ensures { Answers (SimsIr (picked_view asked.now) (contents_view contents.now) ir.now) result }
{
    let program = load_program(alloc, asked, ir, contents.of(Role::Patch))?;
    let input = contents.bytes(Role::Input);
    sim_program(
        alloc,
        program,
        contents.of(Role::Layout),
        input,
        asked.settings.steps,
    )
}

/// Runs the program of a module and its patches on the symbolic machine, where it can be linked.
pub fn sim(alloc: Global, asked: &Picked<'_>, contents: &Contents) -> Result<Finished, End<Refusal>>
    requires { InBounds asked.now.settings }
    ensures { Answers (Sims (picked_view asked.now) (contents_view contents.now)) result }
{
    let ir = read_ir(alloc, contents.bytes(Role::In))?;
    sim_ir(alloc, asked, &ir, contents)
}
