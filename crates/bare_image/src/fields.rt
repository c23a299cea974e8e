ghost use Rattle.std.specs.Prelude.{◌≡◌, ◌≤◌, ◌+◌, ◌^◌, length, nat_le, OnOk, IfOk, Some, None, if◌then◌else◌};
ghost use Rattle.bare_image.specs.Reading.{number, field_at, is_entry, is_stack_address, is_stack_size, is_count, is_length};

use crate::fault::ImageFault;
use crate::rules::{self, Stack};

/// The number in the eight bytes from a place on, where they are all there.
fn number_at(bytes: &[u8], place: usize) -> Option<u64>
    ensures { result ≡ (if nat_le (place + 8) (length bytes.now) then Some (number bytes.now place) else None) }
{
    let field = bytes.get(place..)?.first_chunk::<8>()?;
    Some(u64::from_le_bytes(*field))
}

#[tactic(auto, unfolding(crate::specs::Reading::field_at))]
pub fn entry_at(bytes: &[u8], place: usize) -> Result<u64, ImageFault>
    ensures { result ≡ field_at is_entry bytes.now place }
{
    match number_at(bytes, place) {
        Some(n) if rules::is_entry(n) => Ok(n),
        _ => Err(ImageFault {
            place: place as u64,
        }),
    }
}

#[tactic(auto, unfolding(crate::specs::Reading::field_at))]
pub fn stack_address_at(bytes: &[u8], place: usize) -> Result<u64, ImageFault>
    ensures { result ≡ field_at is_stack_address bytes.now place }
{
    match number_at(bytes, place) {
        Some(n) if rules::is_stack_address(n) => Ok(n),
        _ => Err(ImageFault {
            place: place as u64,
        }),
    }
}

#[tactic(auto, unfolding(crate::specs::Reading::field_at))]
pub fn stack_size_at(stack_at: u64, bytes: &[u8], place: usize) -> Result<u64, ImageFault>
    ensures field { result ≡ field_at (is_stack_size stack_at) bytes.now place }
    ensures high { IfOk result (λ n. stack_at + n ≤ 2 ^ 47) }
    ensures most { IfOk result (λ n. n ≤ 2 ^ 24) }
{
    match number_at(bytes, place) {
        Some(n) if rules::is_stack_size(stack_at, n) => Ok(n),
        _ => Err(ImageFault {
            place: place as u64,
        }),
    }
}

#[tactic(auto, unfolding(crate::specs::Reading::field_at))]
pub fn count_at(bytes: &[u8], place: usize) -> Result<u64, ImageFault>
    ensures { result ≡ field_at is_count bytes.now place }
{
    match number_at(bytes, place) {
        Some(n) if rules::is_count(n) => Ok(n),
        _ => Err(ImageFault {
            place: place as u64,
        }),
    }
}

/// The address of a segment that begins at `least` or above it.
#[tactic(auto, unfolding(crate::specs::Reading::field_at))]
pub fn address_at(least: u64, bytes: &[u8], place: usize) -> Result<u64, ImageFault>
    ensures field { result ≡ field_at (nat_le least) bytes.now place }
    ensures within { OnOk result (place + 8 ≤ length bytes.now) }
{
    match number_at(bytes, place) {
        Some(n) if least <= n => Ok(n),
        _ => Err(ImageFault {
            place: place as u64,
        }),
    }
}

/// The length of a segment at an address.
#[tactic(auto, unfolding(crate::specs::Reading::field_at))]
pub fn length_at(
    stack: Stack,
    loaded: u64,
    at: u64,
    bytes: &[u8],
    place: usize,
) -> Result<u64, ImageFault>
    requires stack { stack.at + stack.size ≤ 2 ^ 47 }
    requires loaded { loaded ≤ 2 ^ 24 }
    ensures field { result ≡ field_at (is_length stack.at stack.size at loaded) bytes.now place }
    ensures within { OnOk result (place + 8 ≤ length bytes.now) }
    ensures high { IfOk result (λ n. at + n ≤ 2 ^ 47) }
    ensures loaded { IfOk result (λ n. loaded + n ≤ 2 ^ 24) }
{
    match number_at(bytes, place) {
        Some(n) if rules::is_length(stack, loaded, at, n) => Ok(n),
        _ => Err(ImageFault {
            place: place as u64,
        }),
    }
}
