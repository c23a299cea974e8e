ghost use Rattle.std.specs.Prelude.{◌≡◌, ◌++◌, OnOk, IfOk};
ghost use Rattle.bare_image.specs.Spelling.{word, segment, spelling};
ghost use Rattle.bare_image.specs.Valid.{image_ok};

use crate::image::{Image, MAGIC, Segment};
use gr_base::Bytes;
use std::alloc::{AllocError, Global};

#[tactic(auto, unfolding(crate::specs::Spelling::word))]
fn put_word(out: &mut Bytes, n: u64) -> Result<(), AllocError>
    ensures { OnOk result (out.new ≡ out.old ++ word n) }
{
    out.extend_from_slice(&n.to_le_bytes())?;
    Ok(())
}

fn put_segment(out: &mut Bytes, s: &Segment) -> Result<(), AllocError>
    ensures { OnOk result (out.new ≡ out.old ++ segment s.now) }
{
    put_word(out, s.at)?;
    put_word(out, s.bytes.len() as u64)?;
    out.extend_from_slice(s.bytes.as_slice())?;
    Ok(())
}

/// The one spelling of an image.
pub fn write_image(alloc: Global, image: &Image) -> Result<Bytes, AllocError>
    requires { image_ok image.now }
    ensures { IfOk result (λ bytes. bytes ≡ spelling image.now) }
{
    let mut out = Bytes::from_slice(alloc, &MAGIC)?;
    put_word(&mut out, image.entry)?;
    put_word(&mut out, image.stack_at)?;
    put_word(&mut out, image.stack_size)?;
    put_word(&mut out, image.segments.len() as u64)?;
    for s in image.segments.as_slice() {
        put_segment(&mut out, s)?;
    }
    Ok(out)
}
