ghost use Rattle.std.specs.Prelude.{[], OnOk};
ghost use Rattle.command_words.specs.Picked.{picked_view, InBounds};
ghost use Rattle.jobs.specs.Contents.{contents_view};
ghost use Rattle.jobs.specs.Outcome.{Promises, makes};
ghost use Rattle.jobs.specs.Stages.{Answers};

use crate::check::check;
use crate::contents::Contents;
use crate::demo::demo;
use crate::layout::layout;
use crate::link::link;
use crate::printing::print;
use crate::recode::recode;
use crate::rewriting::rewrite;
use crate::run::run;
use crate::sim::sim;
use crate::verdict::{Finished, Refusal};
use command_words::{Job, Picked};
use gr_base::End;
use std::alloc::Global;

/// Does a job with the contents of its inputs.
pub fn make(
    alloc: Global,
    asked: &Picked<'_>,
    contents: &Contents,
) -> Result<Finished, End<Refusal>>
    requires { InBounds asked.now.settings }
    ensures stage { Answers (makes (picked_view asked.now) [] (contents_view contents.now)) result }
    ensures promises { OnOk result (Promises (picked_view asked.now) (contents_view contents.now)) }
{
    match asked.job {
        Job::Recode => recode(alloc, contents),
        Job::Check => check(alloc, asked, contents),
        Job::Rewrite => rewrite(alloc, asked, contents),
        Job::Layout => layout(alloc, asked, contents),
        Job::Print => print(alloc, asked, contents),
        Job::Link => link(alloc, asked, contents),
        Job::Run => run(alloc, asked.settings, contents),
        Job::Sim => sim(alloc, asked, contents),
        Job::Demo => demo(alloc, asked.settings),
    }
}
