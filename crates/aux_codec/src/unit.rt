ghost use Rattle.std.specs.Prelude.{◌≡◌, length, IfOk};
ghost use Rattle.std.specs.Int.{w16, w32, w64};
ghost use Rattle.aux_types.specs.Gives.{Gives};
ghost use Rattle.aux_codec.specs.Reading.{place, unit, byte, number, truth};

use gr_base::{AuxFault, End};
use uuid::Uuid;

/// What is read from the front of the bytes, and the bytes after it.
pub type Read<'a, T> = Result<(T, &'a [u8]), End<AuxFault>>;

/// Where bytes stand among so many, by how many are left from there on.
pub fn place(total: usize, left: &[u8]) -> u64
    ensures { result ≡ place total left.now }
{
    total.saturating_sub(left.len()) as u64
}

/// A unit of so many bytes, and the bytes after it.
pub fn unit(total: usize, size: usize, bytes: &[u8]) -> Read<'_, &[u8]>
    ensures read { Gives (λ x. (x.0.now, x.1.now)) result (unit total size bytes.now) }
    ensures size { IfOk result (λ x. length x.0.now ≡ size) }
{
    if bytes.len() < size {
        return Err(End::Fault(AuxFault::Short(place(total, bytes))));
    }
    Ok(bytes.split_at(size))
}

pub fn u8_at(total: usize, bytes: &[u8]) -> Read<'_, u8>
    ensures { Gives (λ x. (x.0, x.1.now)) result (byte total bytes.now) }
{
    match bytes {
        [] => Err(End::Fault(AuxFault::Short(place(total, bytes)))),
        [first, rest @ ..] => Ok((*first, rest)),
    }
}

pub fn u16_at(total: usize, bytes: &[u8]) -> Read<'_, u16>
    ensures { Gives (λ x. (x.0, x.1.now)) result (number total w16 bytes.now) }
{
    let (front, rest) = unit(total, 2, bytes)?;
    Ok((u16::from_le_bytes([front[0], front[1]]), rest))
}

pub fn u32_at(total: usize, bytes: &[u8]) -> Read<'_, u32>
    ensures { Gives (λ x. (x.0, x.1.now)) result (number total w32 bytes.now) }
{
    let (front, rest) = unit(total, 4, bytes)?;
    let number = u32::from_le_bytes([front[0], front[1], front[2], front[3]]);
    Ok((number, rest))
}

pub fn u64_at(total: usize, bytes: &[u8]) -> Read<'_, u64>
    ensures { Gives (λ x. (x.0, x.1.now)) result (number total w64 bytes.now) }
{
    let (front, rest) = unit(total, 8, bytes)?;
    let number = u64::from_le_bytes([
        front[0], front[1], front[2], front[3], front[4], front[5], front[6], front[7],
    ]);
    Ok((number, rest))
}

pub fn truth(total: usize, bytes: &[u8]) -> Read<'_, bool>
    ensures { Gives (λ x. (x.0, x.1.now)) result (truth total bytes.now) }
{
    match bytes {
        [] => Err(End::Fault(AuxFault::Short(place(total, bytes)))),
        [0, rest @ ..] => Ok((false, rest)),
        [1, rest @ ..] => Ok((true, rest)),
        _ => Err(End::Fault(AuxFault::BadBool(place(total, bytes)))),
    }
}

/// The identifier of sixteen bytes.
pub fn uuid(bytes: &[u8]) -> Uuid
    requires { length bytes.now ≡ 16 }
    ensures { result ≡ bytes.now }
{
    let Ok(id) = Uuid::from_slice(bytes) else {
        unreachable!()
    };
    id
}
