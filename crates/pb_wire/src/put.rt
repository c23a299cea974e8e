ghost use Rattle.std.specs.Prelude.{◌≡◌, ◌+◌, ◌-◌, ◌*◌, ◌^◌, ◌≤◌, ◌++◌, length, IsTrue, OnOk, OnErr};
ghost use Rattle.pb_wire.specs.Varint.{shortest};
ghost use Rattle.pb_wire.specs.Records.{is_wire};

use std::alloc::AllocError;

/// Appends the shortest varint of a value.
pub fn put_varint(out: &mut Vec<u8>, value: u64) -> Result<(), AllocError>
    ensures ok { OnOk result (out.new.items ≡ out.old.items ++ shortest value) }
    ensures err { OnErr result (out.new.items ≡ out.old.items) }
{
    let mut buffer = [0u8; 10];
    let mut len = 0;
    let mut rest = value;
    while rest >= 128 {
        buffer[len] = 128 + (rest % 128) as u8;
        rest /= 128;
        len += 1;
    }
    buffer[len] = rest as u8;
    out.extend_from_slice(&buffer[..len + 1])
}

/// Appends the key of a record.
pub fn put_key(out: &mut Vec<u8>, field: u64, wire: u8) -> Result<(), AllocError>
    requires first { 1 ≤ field }
    requires last { field ≤ 2 ^ 29 - 1 }
    requires wire { IsTrue (is_wire wire) }
    ensures ok { OnOk result (out.new.items ≡ out.old.items ++ shortest (8 * field + wire)) }
    ensures err { OnErr result (out.new.items ≡ out.old.items) }
{
    put_varint(out, 8 * field + u64::from(wire))
}

/// Appends the length of a run and then its bytes.
pub fn put_bytes(out: &mut Vec<u8>, bytes: &[u8]) -> Result<(), AllocError>
    ensures ok { OnOk result (out.new.items ≡ out.old.items ++ shortest (length bytes.now) ++ bytes.now) }
    ensures err { OnErr result (out.new.items ≡ out.old.items) }
{
    let before = out.len();
    put_varint(out, bytes.len() as u64)?;
    match out.extend_from_slice(bytes) {
        Ok(()) => Ok(()),
        Err(error) => {
            out.truncate(before);
            Err(error)
        }
    }
}
