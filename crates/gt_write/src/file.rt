ghost use Rattle.std.specs.Prelude.{◌≡◌, ◌<◌, ◌^◌, ◌++◌, length, IfOk, OnOk};
ghost use Rattle.gt_model.specs.Ordered.{ordered};
ghost use Rattle.gt_model.specs.Schema.{ir_rows};
ghost use Rattle.gt_model.specs.Typed.{typed};
ghost use Rattle.gt_model.specs.Views.{ir_value};
ghost use Rattle.gt_read.specs.File.{file};
ghost use Rattle.gt_write.specs.Canonical.{canonical};
ghost use Rattle.gt_write.specs.Lengths.{every_length_fits};
ghost use Rattle.gt_write.specs.Spelling.{spelling};

use crate::laws;
use crate::messages::{Spelled, put_messages, put_optional_message};
use crate::records::{put_id, put_unsigned};
use gr_base::Bytes;
use gt_model::Ir;
use std::alloc::{AllocError, Global};

impl Spelled for Ir {
    ghost spelled = { λ ir. spelling ir_rows (ir_value ir) };

    ghost typed = { typed };

    fn put(&self, alloc: Global, out: &mut Vec<u8>) -> Result<(), AllocError> {
        put_id(out, 1, &self.uuid)?;
        put_messages(alloc, out, 3, &self.modules)?;
        put_messages(alloc, out, 5, &self.aux)?;
        put_unsigned(out, 6, u64::from(self.version))?;
        put_optional_message(alloc, out, 7, &self.cfg)?;
        Ok(())
    }
}

/// The canonical spelling of an IR: the prefix, and then its fields.
pub fn write_file(alloc: Global, ir: &Ir) -> Result<Bytes, AllocError>
    requires order { ordered ir.now }
    requires version { ir.now.version < 256 }
    ensures canonical { IfOk result (λ bytes. bytes ≡ canonical ir.now) }
    ensures reads { IfOk result (λ bytes. file bytes ir.now) }
    ensures fits { IfOk result (λ bytes. length bytes < 2 ^ 64) }
    ensures lengths { OnOk result (every_length_fits ir.now) }
{
    laws::reads_back();
    let mut out = Vec::new(alloc);
    out.extend_from_slice(b"GTIRB\0\0")?;
    out.push(ir.version as u8)?;
    ir.put(alloc, &mut out)?;
    Ok(Bytes::from_vec(out))
}
