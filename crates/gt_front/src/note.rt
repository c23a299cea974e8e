ghost use Rattle.std.specs.Prelude.{◌≡◌, Some, IfOk};
ghost use Rattle.gt_front.specs.Note.{note};

use crate::answer::Answer;
use gr_base::Text;
use note_texts::{CheckNote, LayoutNote, LinkNote, PatchNote, RewriteNote};
use std::alloc::{AllocError, Global};
use std::fmt;

impl fmt::Display for Answer {
    ghost output = { λ answer. Some (note answer) };

    fn fmt<W: fmt::Write>(&self, f: &mut fmt::Formatter<W>) -> fmt::Result {
        match self {
            Answer::Done(text) => f.write_str(text.as_str()),
            Answer::Usage(index) => write!(f, "usage: word {index}"),
            Answer::ReadFault(role) => write!(f, "read fault: {role}"),
            Answer::WriteFault => write!(f, "write fault"),
            Answer::Memory => write!(f, "memory"),
            Answer::TooLarge(role) => write!(f, "too large: {role}"),
            Answer::Format(fault) => write!(f, "format: {fault}"),
            Answer::Check(fault) => write!(f, "check {}", CheckNote(fault)),
            Answer::Patch(fault) => write!(f, "patch {}", PatchNote(*fault)),
            Answer::Rewrite(fault) => write!(f, "rewrite {}", RewriteNote(*fault)),
            Answer::Layout(fault) => write!(f, "layout {}", LayoutNote(*fault)),
            Answer::Link(fault) => write!(f, "link {}", LinkNote(*fault)),
            Answer::Image(fault) => write!(f, "image at {}", fault.place),
        }
    }
}

/// The line that the program prints of an answer, without its end.
pub fn note_text(alloc: Global, answer: &Answer) -> Result<Text, AllocError>
    ensures { IfOk result (λ text. text ≡ note answer.now) }
{
    let text = answer.to_string(alloc)?;
    Ok(Text::from_string(text))
}
