use bare_image::ImageFault;
use gr_base::{Bytes, Text};
use gt_read::FormatFault;
use layout_plan::LayoutFault;
use node_arena::CheckFault;
use patch_lines::PatchFault;
use sym_expr::LinkFault;
use taken_ids::RewriteFault;

/// Why a job can't do what it is asked: something is wrong with the bytes that it was given.
#[derive(Debug, Drop)]
pub enum Refusal {
    /// The bytes aren't a GTIRB file.
    Format(FormatFault),
    /// Something is wrong with the nodes of the file, or with the module that is asked for.
    Check(CheckFault),
    /// The bytes aren't patches that the module can take.
    Patch(PatchFault),
    /// The patches can't be brought into the module.
    Rewrite(RewriteFault),
    /// The bytes aren't a layout, or one that isn't accepted.
    Layout(LayoutFault),
    /// The module can't be linked under the layout.
    Link(LinkFault),
    /// The bytes aren't an image.
    Image(ImageFault),
}

/// What a job has made: its text, and what it writes, if anything.
#[derive(Debug, Drop)]
pub struct Finished {
    pub text: Text,
    pub out: Option<Bytes>,
}
