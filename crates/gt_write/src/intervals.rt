ghost use Rattle.std.specs.Prelude.{◌≡◌, ◌++◌, OnOk};
ghost use Rattle.gt_model.specs.Schema.{code_rows, data_rows, block_rows, interval_rows};
ghost use Rattle.gt_model.specs.Views.{code_fields, data_fields, code_value, data_value, block_value, interval_value};
ghost use Rattle.gt_model.specs.declared.intervals.Body.TheVariants.{Code, Data};
ghost use Rattle.gt_model.specs.Typed.{typed_body, typed_block, typed_interval};
ghost use Rattle.gt_write.specs.Spelling.{run_record, if_there, spelling};

use crate::messages::{Spelled, put_messages};
use crate::records::{put_bytes_field, put_flag, put_id, put_run, put_unsigned};
use gt_model::{Block, Body, Interval};
use std::alloc::{AllocError, Global};
use uuid::Uuid;

fn put_code(out: &mut Vec<u8>, uuid: Uuid, size: u64, decode_mode: u64) -> Result<(), AllocError>
    ensures records { OnOk result (out.new.items ≡ out.old.items ++ spelling code_rows (code_fields uuid size decode_mode)) }
    ensures typed { OnOk result (typed_body (Code uuid size decode_mode)) }
{
    put_id(out, 1, &uuid)?;
    put_unsigned(out, 3, size)?;
    put_unsigned(out, 4, decode_mode)?;
    Ok(())
}

fn put_data(out: &mut Vec<u8>, uuid: Uuid, size: u64) -> Result<(), AllocError>
    ensures records { OnOk result (out.new.items ≡ out.old.items ++ spelling data_rows (data_fields uuid size)) }
    ensures typed { OnOk result (typed_body (Data uuid size)) }
{
    put_id(out, 1, &uuid)?;
    put_unsigned(out, 3, size)?;
    Ok(())
}

/// What a block is, if the file says it.
fn put_body(alloc: Global, out: &mut Vec<u8>, body: Body) -> Result<(), AllocError>
    ensures records { OnOk result (out.new.items
        ≡ out.old.items ++ (if_there (λ v. run_record 2 (spelling code_rows v)) (code_value body)
        ++ if_there (λ v. run_record 3 (spelling data_rows v)) (data_value body))) }
    ensures typed { OnOk result (typed_body body) }
{
    let mut payload = Vec::new(alloc);
    match body {
        Body::Bare => Ok(()),
        Body::Code {
            uuid,
            size,
            decode_mode,
        } => {
            put_code(&mut payload, uuid, size, decode_mode)?;
            put_run(out, 2, payload.as_slice())?;
            Ok(())
        }
        Body::Data { uuid, size } => {
            put_data(&mut payload, uuid, size)?;
            put_run(out, 3, payload.as_slice())?;
            Ok(())
        }
    }
}

impl Spelled for Block {
    ghost spelled = { λ b. spelling block_rows (block_value b) };

    ghost typed = { typed_block };

    fn put(&self, alloc: Global, out: &mut Vec<u8>) -> Result<(), AllocError> {
        put_unsigned(out, 1, self.offset)?;
        put_body(alloc, out, self.body)?;
        Ok(())
    }
}

impl Spelled for Interval {
    ghost spelled = { λ i. spelling interval_rows (interval_value i) };

    ghost typed = { typed_interval };

    fn put(&self, alloc: Global, out: &mut Vec<u8>) -> Result<(), AllocError> {
        put_id(out, 1, &self.uuid)?;
        put_messages(alloc, out, 2, &self.blocks)?;
        put_messages(alloc, out, 3, &self.exprs)?;
        put_flag(out, 4, self.has_address)?;
        put_unsigned(out, 5, self.address)?;
        put_unsigned(out, 6, self.size)?;
        put_bytes_field(out, 7, self.contents.as_slice())?;
        Ok(())
    }
}
