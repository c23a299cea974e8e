ghost use Rattle.std.specs.Prelude.{◌≡◌};
ghost use Rattle.gt_model.specs.Schema.{symbol_rows};
ghost use Rattle.gt_model.specs.Views.{number_of, referent_of, symbol_value};
ghost use Rattle.gt_model.specs.Typed.{typed_symbol};
ghost use Rattle.gt_write.specs.Spelling.{spelling};

use crate::messages::Spelled;
use crate::records::{put_bytes_field, put_flag, put_id, put_optional_id, put_optional_number};
use gt_model::{Payload, Symbol};
use std::alloc::{AllocError, Global};
use uuid::Uuid;

fn value_of(payload: Payload) -> Option<u64>
    ensures { result ≡ number_of payload }
{
    match payload {
        Payload::Value(value) => Some(value),
        Payload::Nothing | Payload::Referent(_) => None,
    }
}

fn referent_of(payload: Payload) -> Option<Uuid>
    ensures { result ≡ referent_of payload }
{
    match payload {
        Payload::Referent(uuid) => Some(uuid),
        Payload::Nothing | Payload::Value(_) => None,
    }
}

impl Spelled for Symbol {
    ghost spelled = { λ s. spelling symbol_rows (symbol_value s) };

    ghost typed = { typed_symbol };

    fn put(&self, _: Global, out: &mut Vec<u8>) -> Result<(), AllocError> {
        put_id(out, 1, &self.uuid)?;
        put_optional_number(out, 2, value_of(self.payload))?;
        put_bytes_field(out, 3, self.name.as_str().as_bytes())?;
        put_optional_id(out, 5, referent_of(self.payload))?;
        put_flag(out, 6, self.at_end)?;
        Ok(())
    }
}
