ghost use Rattle.std.specs.Prelude.{◌≡◌, IfOk};
ghost use Rattle.std.specs.String.{string_bytes};
ghost use Rattle.aux_types.specs.Gives.{Gives};
ghost use Rattle.gt_model.specs.Ordered.{ordered};
ghost use Rattle.jobs.specs.Modules.{check_made, nodes_text, report_text, Checks};
ghost use Rattle.command_words.specs.Picked.{picked_view, InBounds};
ghost use Rattle.jobs.specs.Contents.{contents_view};
ghost use Rattle.jobs.specs.Stages.{Answers};

use crate::contents::Contents;
use crate::modules::load;
use crate::stages::read_ir;
use crate::verdict::{Finished, Refusal};
use command_words::{Picked, Role};
use gr_base::{End, Text};
use gt_model::Ir;
use ir_check::CheckReport;
use std::alloc::{AllocError, Global};

fn nodes_text(alloc: Global, report: &CheckReport) -> Result<String, AllocError>
    ensures { IfOk result (λ text. string_bytes text ≡ nodes_text report.now) }
{
    format!(in alloc;
        "ok sections={} intervals={} blocks={} symbols={}",
        report.sections, report.intervals, report.blocks, report.symbols
    )
}

/// The text of a check.
fn report_text(alloc: Global, report: &CheckReport) -> Result<Text, AllocError>
    ensures { IfOk result (λ text. text ≡ report_text report.now) }
{
    let nodes = nodes_text(alloc, report)?;
    let text = format!(in alloc;
        "{nodes} exprs={} edges={} tables={} opaque={}",
        report.exprs, report.edges, report.tables, report.opaque
    )?;
    Ok(Text::from_string(text))
}

/// The report of the module that the words ask for.
fn check_ir(alloc: Global, asked: &Picked<'_>, ir: &Ir) -> Result<Finished, End<Refusal>>
    requires bounds { InBounds asked.now.settings }
    requires order { ordered ir.now }
    ensures { Gives (λ made. made) result (check_made (picked_view asked.now) ir.now) }
{
    let loaded = load(alloc, asked, ir)?;
    let text = report_text(alloc, &loaded.report)?;
    Ok(Finished { text, out: None })
}

/// Says whether a module is a program, and how much there is of everything.
pub fn check(
    alloc: Global,
    asked: &Picked<'_>,
    contents: &Contents,
) -> Result<Finished, End<Refusal>>
    requires { InBounds asked.now.settings }
    ensures { Answers (Checks (picked_view asked.now) (contents_view contents.now)) result }
{
    let ir = read_ir(alloc, contents.bytes(Role::In))?;
    check_ir(alloc, asked, &ir)
}
