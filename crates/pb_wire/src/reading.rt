ghost use Rattle.std.specs.Prelude.{◌≡◌, ◌+◌, ◌-◌, ◌^◌, ◌≤◌, length, take, IfOk, IfErr};
ghost use Rattle.pb_wire.specs.Reading.{varint_of, payload_of, record_of, eight_load, four_load, run_load};
ghost use Rattle.pb_wire.specs.Varint.{IsVarint};
ghost use Rattle.pb_wire.specs.Faults.{VarintFails};

use crate::fault::WireReason;
use crate::records::{Load, Record, Span};

/// The index of the last byte that a varint may have.
const LAST: usize = 9;

/// Reads group after group of seven bits.
fn read_groups(bytes: &[u8]) -> Result<(u64, usize), WireReason>
    ensures value { result ≡ varint_of bytes.now }
    ensures within { IfOk result (λ found. found.1 ≤ length bytes.now) }
{
    let mut value = 0u64;
    for (i, byte) in bytes.iter().enumerate() {
        if i == LAST && *byte > 1 {
            return Err(WireReason::Varint);
        }
        value += u64::from(*byte % 128) << (7 * i);
        if *byte < 128 {
            return Ok((value, i + 1));
        }
    }
    Err(WireReason::Truncated)
}

/// The varint at the front, and how many bytes it has. It takes no memory.
pub fn read_varint(bytes: &[u8]) -> Result<(u64, usize), WireReason>
    ensures value { result ≡ varint_of bytes.now }
    ensures within { IfOk result (λ found. found.1 ≤ length bytes.now) }
    ensures spelled { IfOk result (λ found. IsVarint (take found.1 bytes.now) found.0) }
    ensures fails { IfErr result (VarintFails bytes.now) }
{
    read_groups(bytes)
}

/// Eight bytes as a load.
fn read_eight(bytes: &[u8]) -> Result<(Load, usize), WireReason>
    ensures value { result ≡ eight_load bytes.now }
    ensures within { IfOk result (λ found. found.1 ≤ length bytes.now) }
{
    if bytes.len() < 8 {
        return Err(WireReason::Truncated);
    }
    let (front, _) = bytes.split_at(8);
    let number = u64::from_le_bytes([
        front[0], front[1], front[2], front[3], front[4], front[5], front[6], front[7],
    ]);
    Ok((Load::Eight(number), 8))
}

/// Four bytes as a load.
fn read_four(bytes: &[u8]) -> Result<(Load, usize), WireReason>
    ensures value { result ≡ four_load bytes.now }
    ensures within { IfOk result (λ found. found.1 ≤ length bytes.now) }
{
    if bytes.len() < 4 {
        return Err(WireReason::Truncated);
    }
    let (front, _) = bytes.split_at(4);
    let number = u32::from_le_bytes([front[0], front[1], front[2], front[3]]);
    Ok((Load::Four(number), 4))
}

/// A length and the run behind it, where the length stands at the place.
fn read_run(bytes: &[u8], place: u64) -> Result<(Load, usize), WireReason>
    requires { place + length bytes.now ≤ 2 ^ 64 - 1 }
    ensures value { result ≡ run_load bytes.now place (varint_of bytes.now) }
    ensures within { IfOk result (λ found. found.1 ≤ length bytes.now) }
{
    let (len, size) = read_varint(bytes)?;
    if len > (bytes.len() - size) as u64 {
        return Err(WireReason::Truncated);
    }
    let start = place + size as u64;
    Ok((Load::Run(Span { start, len }), size + len as usize))
}

/// The payload of a wire type at the front, and how many bytes it has.
#[tactic(auto, unfolding(crate::specs::Reading::payload_of))]
fn read_payload(wire: u64, bytes: &[u8], place: u64) -> Result<(Load, usize), WireReason>
    requires { place + length bytes.now ≤ 2 ^ 64 - 1 }
    ensures value { result ≡ payload_of wire bytes.now place }
    ensures within { IfOk result (λ found. found.1 ≤ length bytes.now) }
{
    match wire {
        0 => {
            let (value, size) = read_varint(bytes)?;
            Ok((Load::Varint(value), size))
        }
        1 => read_eight(bytes),
        2 => read_run(bytes, place),
        5 => read_four(bytes),
        _ => Err(WireReason::WireType),
    }
}

/// The record at the front, whose first byte is at the place, and how many bytes it has.
#[tactic(auto, unfolding(crate::specs::Reading::record_of))]
pub fn read_record(bytes: &[u8], place: u64) -> Result<(Record, usize), WireReason>
    requires { place + length bytes.now ≤ 2 ^ 64 - 1 }
    ensures value { result ≡ record_of bytes.now place }
    ensures within { IfOk result (λ found. found.1 ≤ length bytes.now) }
{
    let (key, size) = read_varint(bytes)?;
    let field = key / 8;
    if field == 0 {
        return Err(WireReason::FieldZero);
    }
    let (load, payload_size) = read_payload(key % 8, &bytes[size..], place + size as u64)?;
    Ok((Record { place, field, load }, size + payload_size))
}
