//! Bytes of an interval: its contents, and zeros behind them.

ghost use Rattle.std.specs.Prelude.{◌≡◌, ◌+◌, ◌^◌, ◌<◌, IfOk};
ghost use Rattle.sym_expr.specs.Modules.{byte_at, bytes_at, word_of};

use gr_base::Bytes;
use gt_model::Interval;
use std::alloc::{AllocError, Global};

fn byte_at(interval: &Interval, at: u128) -> u8
    ensures { result ≡ byte_at interval.now at }
{
    let contents = interval.contents.as_slice();
    if at < contents.len() as u128 {
        contents[at as usize]
    } else {
        0
    }
}

/// So many bytes from an offset on.
pub(crate) fn bytes_at(
    alloc: Global,
    interval: &Interval,
    at: u64,
    count: u64,
) -> Result<Bytes, AllocError>
    ensures { IfOk result (λ bytes. bytes ≡ bytes_at interval.now at count) }
{
    let mut bytes = Vec::new(alloc);
    for k in 0..count {
        bytes.push(byte_at(interval, u128::from(at) + u128::from(k)))?;
    }
    Ok(Bytes::from_vec(bytes))
}

/// The word at an offset.
pub(crate) fn word_of(interval: &Interval, at: u128) -> u32
    requires { at < 2 ^ 100 }
    ensures { result ≡ word_of interval.now at }
{
    let second = at + 1;
    let third = second + 1;
    let fourth = third + 1;
    u32::from_le_bytes([
        byte_at(interval, at),
        byte_at(interval, second),
        byte_at(interval, third),
        byte_at(interval, fourth),
    ])
}
