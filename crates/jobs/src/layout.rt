ghost use Rattle.std.specs.Prelude.{◌≡◌, IfOk};
ghost use Rattle.gt_model.specs.Ordered.{ordered};
ghost use Rattle.gt_model.specs.Typed.{typed};
ghost use Rattle.sym_expr.specs.WellMade.{well_made};
ghost use Rattle.jobs.specs.Linking.{laid_out, LaysIr, Lays};
ghost use Rattle.command_words.specs.Picked.{picked_view, InBounds};
ghost use Rattle.jobs.specs.Contents.{contents_view};
ghost use Rattle.jobs.specs.Stages.{Answers};

use crate::contents::Contents;
use crate::program::load_program;
use crate::recode::written;
use crate::stages::read_ir;
use crate::verdict::{Finished, Refusal};
use command_words::{Picked, Role};
use gr_base::End;
use gt_model::Ir;
use layout_plan::{default_layout, print_layout, program_shape};
use std::alloc::{AllocError, Global};
use sym_expr::Program;

/// The default layout of a program, as it is written.
fn default_text(alloc: Global, program: &Program) -> Result<Finished, AllocError>
    requires { well_made program.now }
    ensures { IfOk result (λ made. made ≡ laid_out program.now) }
{
    let shape = program_shape(alloc, program)?;
    let layout = default_layout(alloc, &shape)?;
    let text = print_layout(alloc, &layout)?;
    written(alloc, text)
}

/// The default layout of the program that the words ask for.
fn layout_ir(
    alloc: Global,
    asked: &Picked<'_>,
    ir: &Ir,
    contents: &Contents,
) -> Result<Finished, End<Refusal>>
    requires bounds { InBounds asked.now.settings }
    requires order { ordered ir.now }
    requires values { typed ir.now }
    ensures { Answers (LaysIr (picked_view asked.now) (contents_view contents.now) ir.now) result }
{
    let program = load_program(alloc, asked, ir, contents.of(Role::Patch))?;
    Ok(default_text(alloc, &program)?)
}

/// Writes the default layout of the program of a module and its patches.
pub fn layout(
    alloc: Global,
    asked: &Picked<'_>,
    contents: &Contents,
) -> Result<Finished, End<Refusal>>
    requires { InBounds asked.now.settings }
    ensures { Answers (Lays (picked_view asked.now) (contents_view contents.now)) result }
{
    let ir = read_ir(alloc, contents.bytes(Role::In))?;
    layout_ir(alloc, asked, &ir, contents)
}
