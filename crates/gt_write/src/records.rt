//! Appends the records of plain fields.

ghost use Rattle.std.specs.Prelude.{◌≡◌, ◌≤◌, ◌^◌, ◌-◌, ◌++◌, IfSome, OnOk};
ghost use Rattle.std.specs.List.{AllByRecursion};
ghost use Rattle.gt_model.specs.Schema.{Id, OptionalId, Blob, Unsigned64, Signed64, Signed32, Flag};
ghost use Rattle.gt_model.specs.Typed.{AreBytes, IsId, IsU64, IsI32};
ghost use Rattle.gt_write.specs.Spelling.{varint_record, run_record, plain_record, plain_field, if_there, repeated_records};

use gr_base::Seq;
use pb_wire::{put_bytes, put_key, put_varint};
use std::alloc::{AllocError, Global};
use uuid::Uuid;

/// The wire type of a varint, and of a run of bytes.
const VARINT: u8 = 0;

const RUN: u8 = 2;

pub fn put_number(out: &mut Vec<u8>, field: u64, value: u64) -> Result<(), AllocError>
    requires first { 1 ≤ field }
    requires last { field ≤ 2 ^ 29 - 1 }
    ensures { OnOk result (out.new.items ≡ out.old.items ++ varint_record field value) }
{
    put_key(out, field, VARINT)?;
    put_varint(out, value)?;
    Ok(())
}

pub fn put_run(out: &mut Vec<u8>, field: u64, bytes: &[u8]) -> Result<(), AllocError>
    requires first { 1 ≤ field }
    requires last { field ≤ 2 ^ 29 - 1 }
    ensures records { OnOk result (out.new.items ≡ out.old.items ++ run_record field bytes.now) }
    ensures typed { OnOk result (AreBytes bytes.now) }
{
    put_key(out, field, RUN)?;
    put_bytes(out, bytes)?;
    Ok(())
}

/// An identifier that must be there.
pub fn put_id(out: &mut Vec<u8>, field: u64, id: &Uuid) -> Result<(), AllocError>
    requires first { 1 ≤ field }
    requires last { field ≤ 2 ^ 29 - 1 }
    ensures records { OnOk result (out.new.items ≡ out.old.items ++ run_record field id.now) }
    ensures typed { OnOk result (IsId id.now) }
{
    put_run(out, field, id.as_bytes())?;
    Ok(())
}

pub fn put_optional_id(out: &mut Vec<u8>, field: u64, id: Option<Uuid>) -> Result<(), AllocError>
    requires first { 1 ≤ field }
    requires last { field ≤ 2 ^ 29 - 1 }
    ensures plain { OnOk result (out.new.items ≡ out.old.items ++ plain_field field OptionalId id) }
    ensures member { OnOk result (out.new.items ≡ out.old.items ++ if_there (plain_record field Id) id) }
    ensures typed { OnOk result (IfSome id IsId) }
{
    match id {
        None => Ok(()),
        Some(id) => put_id(out, field, &id),
    }
}

/// A number, if there is one.
pub fn put_optional_number(
    out: &mut Vec<u8>,
    field: u64,
    value: Option<u64>,
) -> Result<(), AllocError>
    requires first { 1 ≤ field }
    requires last { field ≤ 2 ^ 29 - 1 }
    ensures records { OnOk result (out.new.items ≡ out.old.items ++ if_there (plain_record field Unsigned64) value) }
    ensures typed { OnOk result (IfSome value IsU64) }
{
    match value {
        None => Ok(()),
        Some(value) => put_number(out, field, value),
    }
}

/// A text or bytes, left out where they are empty.
pub fn put_bytes_field(out: &mut Vec<u8>, field: u64, bytes: &[u8]) -> Result<(), AllocError>
    requires first { 1 ≤ field }
    requires last { field ≤ 2 ^ 29 - 1 }
    ensures records { OnOk result (out.new.items ≡ out.old.items ++ plain_field field Blob bytes.now) }
    ensures typed { OnOk result (AreBytes bytes.now) }
{
    if bytes.is_empty() {
        return Ok(());
    }
    put_run(out, field, bytes)
}

/// A number, left out where it is 0.
pub fn put_unsigned(out: &mut Vec<u8>, field: u64, value: u64) -> Result<(), AllocError>
    requires first { 1 ≤ field }
    requires last { field ≤ 2 ^ 29 - 1 }
    ensures { OnOk result (out.new.items ≡ out.old.items ++ plain_field field Unsigned64 value) }
{
    if value == 0 {
        return Ok(());
    }
    put_number(out, field, value)
}

/// A signed number, left out where it is 0.
pub fn put_signed(out: &mut Vec<u8>, field: u64, value: i64) -> Result<(), AllocError>
    requires first { 1 ≤ field }
    requires last { field ≤ 2 ^ 29 - 1 }
    ensures { OnOk result (out.new.items ≡ out.old.items ++ plain_field field Signed64 value) }
{
    put_unsigned(out, field, value.cast_unsigned())
}

/// A signed number of 32 bits, left out where it is 0.
pub fn put_signed32(out: &mut Vec<u8>, field: u64, value: i32) -> Result<(), AllocError>
    requires first { 1 ≤ field }
    requires last { field ≤ 2 ^ 29 - 1 }
    ensures { OnOk result (out.new.items ≡ out.old.items ++ plain_field field Signed32 value) }
{
    put_signed(out, field, i64::from(value))
}

/// A truth value, left out where it is false.
pub fn put_flag(out: &mut Vec<u8>, field: u64, value: bool) -> Result<(), AllocError>
    requires first { 1 ≤ field }
    requires last { field ≤ 2 ^ 29 - 1 }
    ensures { OnOk result (out.new.items ≡ out.old.items ++ plain_field field Flag value) }
{
    if value {
        put_number(out, field, 1)
    } else {
        Ok(())
    }
}

/// Numbers in one packed run, left out where there are none.
pub fn put_packed(
    alloc: Global,
    out: &mut Vec<u8>,
    field: u64,
    values: &Seq<i32>,
) -> Result<(), AllocError>
    requires first { 1 ≤ field }
    requires last { field ≤ 2 ^ 29 - 1 }
    ensures records { OnOk result (out.new.items ≡ out.old.items ++ repeated_records field Signed32 values.now) }
    ensures typed { OnOk result (AllByRecursion IsI32 values.now) }
{
    let mut packed = Vec::new(alloc);
    for value in values.as_slice() {
        put_varint(&mut packed, i64::from(*value).cast_unsigned())?;
    }
    put_bytes_field(out, field, packed.as_slice())
}

/// Identifiers, each in a record of its own.
pub fn put_ids(out: &mut Vec<u8>, field: u64, ids: &Seq<Uuid>) -> Result<(), AllocError>
    requires first { 1 ≤ field }
    requires last { field ≤ 2 ^ 29 - 1 }
    ensures records { OnOk result (out.new.items ≡ out.old.items ++ repeated_records field Id ids.now) }
    ensures typed { OnOk result (AllByRecursion IsId ids.now) }
{
    for id in ids.as_slice() {
        put_id(out, field, id)?;
    }
    Ok(())
}
