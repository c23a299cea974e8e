ghost use Rattle.std.specs.Prelude.{◌≡◌};
ghost use Rattle.gt_front.specs.Answer.{status_of, answer_of, unread_answer};

use crate::inputs::Unread;
use bare_image::ImageFault;
use command_words::Role;
use gr_base::{End, ReadEnd, Text};
use gt_read::FormatFault;
use jobs::Refusal;
use layout_plan::LayoutFault;
use node_arena::CheckFault;
use patch_lines::PatchFault;
use sym_expr::LinkFault;
use taken_ids::RewriteFault;

/// How a job ended.
#[derive(Debug, Drop)]
pub enum Answer {
    /// The job is done, with its text.
    Done(Text),
    /// The first word that breaks the rules, counted from 0, or the number of words where only a
    /// required one is missing.
    Usage(u64),
    ReadFault(Role),
    WriteFault,
    Memory,
    TooLarge(Role),
    /// The bytes aren't a GTIRB file.
    Format(FormatFault),
    /// Something is wrong with the nodes of the file, or with the module that is asked for.
    Check(CheckFault),
    /// The bytes aren't patches that the module can take.
    Patch(PatchFault),
    /// The patches can't be brought into the module.
    Rewrite(RewriteFault),
    /// The bytes aren't a layout, or one that isn't accepted.
    Layout(LayoutFault),
    /// The module can't be linked under the layout.
    Link(LinkFault),
    /// The bytes aren't an image.
    Image(ImageFault),
}

impl Answer {
    /// The exit status of the program.
    pub fn status(&self) -> u8
        ensures { result ≡ status_of self.now }
    {
        match self {
            Answer::Done(_) => 0,
            Answer::Usage(_) => 2,
            Answer::ReadFault(_) => 3,
            Answer::WriteFault => 4,
            Answer::Memory => 5,
            Answer::TooLarge(_) => 6,
            Answer::Format(_) => 7,
            Answer::Check(_) => 8,
            Answer::Patch(_) => 9,
            Answer::Rewrite(_) => 10,
            Answer::Layout(_) => 11,
            Answer::Link(_) => 12,
            Answer::Image(_) => 14,
        }
    }

    /// The answer where an input wasn't read.
    pub(crate) fn unread(unread: Unread) -> Answer
        ensures { result ≡ unread_answer unread.role unread.end }
    {
        match unread.end {
            End::Fault(ReadEnd::Fault) => Answer::ReadFault(unread.role),
            End::Fault(ReadEnd::TooLarge) => Answer::TooLarge(unread.role),
            End::Memory => Answer::Memory,
        }
    }

    /// The answer of a job that refused.
    pub(crate) fn refused(refusal: Refusal) -> Answer
        ensures { result ≡ answer_of refusal }
    {
        match refusal {
            Refusal::Format(fault) => Answer::Format(fault),
            Refusal::Check(fault) => Answer::Check(fault),
            Refusal::Patch(fault) => Answer::Patch(fault),
            Refusal::Rewrite(fault) => Answer::Rewrite(fault),
            Refusal::Layout(fault) => Answer::Layout(fault),
            Refusal::Link(fault) => Answer::Link(fault),
            Refusal::Image(fault) => Answer::Image(fault),
        }
    }
}
