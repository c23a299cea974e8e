ghost use Rattle.std.specs.Prelude.{◌≡◌, ◌<◌, ◌++◌, IfOk, OnOk, codes};
ghost use Rattle.std.specs.Fmt.{decimal};
ghost use Rattle.gt_model.specs.Ordered.{ordered};
ghost use Rattle.gt_read.specs.File.{file};
ghost use Rattle.gt_write.specs.Canonical.{canonical};
ghost use Rattle.jobs.specs.Contents.{contents_view};
ghost use Rattle.jobs.specs.Recode.{Recodes, ReadsBack, Means, written, done_text};
ghost use Rattle.jobs.specs.Stages.{Answers};

use crate::contents::Contents;
use crate::stages::read_ir;
use crate::verdict::{Finished, Refusal};
use command_words::Role;
use gr_base::{Bytes, End, Text};
use gt_model::Ir;
use gt_read::laws::one_meaning;
use gt_write::write_file;
use std::alloc::{AllocError, Global};

/// The text of a job that wrote so many bytes.
fn done_note(alloc: Global, count: usize) -> Result<Text, AllocError>
    ensures { IfOk result (λ text. text ≡ codes "done bytes=" ++ decimal count) }
{
    let text = format!(in alloc; "done bytes={count}")?;
    Ok(Text::from_string(text))
}

/// What a job that writes these bytes has made.
pub fn written(alloc: Global, out: Bytes) -> Result<Finished, AllocError>
    ensures { IfOk result (λ made. made ≡ written out) }
{
    let text = done_note(alloc, out.len())?;
    Ok(Finished {
        text,
        out: Some(out),
    })
}

/// The canonical file of an IR.
pub fn spelled(alloc: Global, ir: &Ir) -> Result<Finished, AllocError>
    requires order { ordered ir.now }
    requires version { ir.now.version < 256 }
    ensures made { IfOk result (λ made. made ≡ written (canonical ir.now)) }
    ensures means { OnOk result (Means (canonical ir.now) ir.now) }
{
    one_meaning();
    let out = write_file(alloc, ir)?;
    written(alloc, out)
}

/// Writes the file that is read canonically.
pub fn recode(alloc: Global, contents: &Contents) -> Result<Finished, End<Refusal>>
    ensures stage { Answers (Recodes (contents_view contents.now)) result }
    ensures reads_back { OnOk result (ReadsBack (contents_view contents.now)) }
{
    one_meaning();
    let ir = read_ir(alloc, contents.bytes(Role::In))?;
    Ok(spelled(alloc, &ir)?)
}
