ghost use Rattle.std.specs.Prelude.{◌≡◌, ◌≤◌, IfOk};
ghost use Rattle.bare_image.specs.Valid.{image_ok};
ghost use Rattle.num_run.specs.Run.{num_run};
ghost use Rattle.command_words.specs.Picked.{InBounds};
ghost use Rattle.jobs.specs.Contents.{contents_view};
ghost use Rattle.jobs.specs.Run.{Runs, reported};
ghost use Rattle.jobs.specs.Stages.{Answers};

use crate::contents::Contents;
use crate::stages::image_in;
use crate::verdict::{Finished, Refusal};
use bare_image::Image;
use command_words::{Role, Settings};
use gr_base::{End, Text};
use note_texts::state_note;
use num_run::run_image;
use std::alloc::{AllocError, Global};

/// The output of a run, and the text that says where it stands.
fn ran(alloc: Global, image: &Image, input: &[u8], steps: u64) -> Result<Finished, AllocError>
    requires image { image_ok image.now }
    requires steps { steps ≤ 10000000 }
    ensures { IfOk result (λ made. made ≡ reported (num_run image.now input.now steps)) }
{
    let report = run_image(alloc, image, input, steps)?;
    let text = state_note(alloc, &report)?;
    Ok(Finished {
        text: Text::from_string(text),
        out: Some(report.output),
    })
}

/// Runs the image that is read, and writes its output.
pub fn run(alloc: Global, settings: Settings, contents: &Contents) -> Result<Finished, End<Refusal>>
    requires { InBounds settings }
    ensures { Answers (Runs settings (contents_view contents.now)) result }
{
    let image = image_in(alloc, contents.bytes(Role::In))?;
    let finished = ran(alloc, &image, contents.bytes(Role::Input), settings.steps)?;
    Ok(finished)
}
