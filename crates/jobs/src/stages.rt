ghost use Rattle.std.specs.Prelude.{◌≡◌, ◌<◌, IfOk};
ghost use Rattle.gt_model.specs.Ordered.{ordered};
ghost use Rattle.gt_model.specs.Typed.{typed};
ghost use Rattle.jobs.specs.Stages.{Answers, meant, imaged};
ghost use Rattle.bare_image.specs.Valid.{image_ok};

use crate::verdict::Refusal;
use bare_image::laws::image_or_fault;
use bare_image::{Image, read_image};
use gr_base::End;
use gt_model::Ir;
use gt_read::laws::a_file_has_no_fault;
use gt_read::read_file;
use std::alloc::Global;

/// The IR that the bytes of a file mean.
pub fn read_ir(alloc: Global, bytes: &[u8]) -> Result<Ir, End<Refusal>>
    ensures stage { Answers (meant bytes.now) result }
    ensures typed { IfOk result (λ ir. typed ir) }
    ensures order { IfOk result (λ ir. ordered ir) }
    ensures version { IfOk result (λ ir. ir.version < 256) }
{
    a_file_has_no_fault();
    match read_file(alloc, bytes) {
        Ok(ir) => Ok(ir),
        Err(End::Fault(fault)) => Err(End::Fault(Refusal::Format(fault))),
        Err(End::Memory) => Err(End::Memory),
    }
}

/// The image that bytes spell.
pub fn image_in(alloc: Global, bytes: &[u8]) -> Result<Image, End<Refusal>>
    ensures stage { Answers (imaged bytes.now) result }
    ensures valid { IfOk result image_ok }
{
    image_or_fault();
    match read_image(alloc, bytes) {
        Ok(image) => Ok(image),
        Err(End::Fault(fault)) => Err(End::Fault(Refusal::Image(fault))),
        Err(End::Memory) => Err(End::Memory),
    }
}
