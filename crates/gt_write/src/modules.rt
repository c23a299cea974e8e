ghost use Rattle.gt_model.specs.Schema.{proxy_rows, section_rows, module_rows};
ghost use Rattle.gt_model.specs.Views.{proxy_value, section_value, module_value};
ghost use Rattle.gt_model.specs.Typed.{IsId, typed_section, typed_module};
ghost use Rattle.gt_write.specs.Spelling.{spelling};

use crate::messages::{Spelled, put_messages};
use crate::records::{
    put_bytes_field, put_id, put_optional_id, put_packed, put_signed, put_signed32, put_unsigned,
};
use gt_model::{Module, Section};
use std::alloc::{AllocError, Global};
use uuid::Uuid;

/// A proxy block, which has an identifier and nothing else.
impl Spelled for Uuid {
    ghost spelled = { λ id. spelling proxy_rows (proxy_value id) };

    ghost typed = { IsId };

    fn put(&self, _: Global, out: &mut Vec<u8>) -> Result<(), AllocError> {
        put_id(out, 1, self)?;
        Ok(())
    }
}

impl Spelled for Section {
    ghost spelled = { λ s. spelling section_rows (section_value s) };

    ghost typed = { typed_section };

    fn put(&self, alloc: Global, out: &mut Vec<u8>) -> Result<(), AllocError> {
        put_id(out, 1, &self.uuid)?;
        put_bytes_field(out, 2, self.name.as_str().as_bytes())?;
        put_messages(alloc, out, 5, &self.intervals)?;
        put_packed(alloc, out, 6, &self.flags)?;
        Ok(())
    }
}

impl Spelled for Module {
    ghost spelled = { λ m. spelling module_rows (module_value m) };

    ghost typed = { typed_module };

    fn put(&self, alloc: Global, out: &mut Vec<u8>) -> Result<(), AllocError> {
        put_id(out, 1, &self.uuid)?;
        put_bytes_field(out, 2, self.binary_path.as_str().as_bytes())?;
        put_unsigned(out, 3, self.preferred_addr)?;
        put_signed(out, 4, self.rebase_delta)?;
        put_signed32(out, 5, self.file_format)?;
        put_signed32(out, 6, self.isa)?;
        put_bytes_field(out, 7, self.name.as_str().as_bytes())?;
        put_messages(alloc, out, 9, &self.symbols)?;
        put_messages(alloc, out, 12, &self.sections)?;
        put_messages(alloc, out, 16, &self.proxies)?;
        put_messages(alloc, out, 17, &self.aux)?;
        put_optional_id(out, 18, self.entry)?;
        put_signed32(out, 19, self.byte_order)?;
        Ok(())
    }
}
