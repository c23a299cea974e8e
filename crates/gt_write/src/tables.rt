ghost use Rattle.std.specs.Prelude.{◌≡◌, ◌++◌, IsUtf8, OnOk};
ghost use Rattle.gt_model.specs.Schema.{Text, table_rows};
ghost use Rattle.gt_model.specs.Views.{table_value};
ghost use Rattle.gt_model.specs.Typed.{AreBytes, typed_aux};
ghost use Rattle.gt_write.specs.Spelling.{plain_record, run_record, spelling};

use crate::messages::Spelled;
use crate::records::{put_bytes_field, put_run};
use gt_model::Aux;
use std::alloc::{AllocError, Global};

/// A table without its name.
fn put_table(out: &mut Vec<u8>, table: &Aux) -> Result<(), AllocError>
    ensures records { OnOk result (out.new.items ≡ out.old.items ++ spelling table_rows (table_value table.now)) }
    ensures type_name { OnOk result (IsUtf8 table.now.type_name) }
    ensures bytes { OnOk result (AreBytes table.now.bytes) }
{
    put_bytes_field(out, 1, table.type_name.as_str().as_bytes())?;
    put_bytes_field(out, 2, table.bytes.as_slice())?;
    Ok(())
}

/// The entry of a map from names to tables.
impl Spelled for Aux {
    ghost spelled = { λ a. plain_record 1 Text a.name ++ run_record 2 (spelling table_rows (table_value a)) };

    ghost typed = { typed_aux };

    fn put(&self, alloc: Global, out: &mut Vec<u8>) -> Result<(), AllocError> {
        put_run(out, 1, self.name.as_str().as_bytes())?;
        let mut table = Vec::new(alloc);
        put_table(&mut table, self)?;
        put_run(out, 2, table.as_slice())?;
        Ok(())
    }
}
