ghost use Rattle.std.specs.Prelude.{◌≡◌, ◌≤◌, ◌+◌, ◌^◌, ℕ, length, IfOk, Ok, Err};
ghost use Rattle.gr_base.specs.declared.end.End.TheVariants.{Fault};
ghost use Rattle.bare_image.specs.declared.image.Image.{Image};
ghost use Rattle.bare_image.specs.Valid.{image_bytes};
ghost use Rattle.bare_image.specs.Reading.{Gives, content_at, segment_at, segments_at, image_of, image_fault};

use crate::fault::ImageFault;
use crate::fields::{address_at, count_at, entry_at, length_at, stack_address_at, stack_size_at};
use crate::image::{Image, MAGIC, Segment};
use crate::rules::{LOWEST, Stack};
use gr_base::{Bytes, End, Seq};
use std::alloc::Global;

/// What the segments so far have taken: the addresses below an end, and loaded bytes with the stack's.
#[derive(Clone, Copy)]
struct Taken {
    end: u64,
    loaded: u64,
}

/// So many bytes from a place on.
#[tactic(auto, unfolding(crate::specs::Reading::content_at))]
fn content(alloc: Global, bytes: &[u8], place: usize, len: u64) -> Result<Bytes, End<ImageFault>>
    requires { place ≤ length bytes.now }
    ensures content { Gives (λ content. content) result (content_at bytes.now place len) }
    ensures len { IfOk result (λ content. length content ≡ len) }
    ensures within { IfOk result (λ content. place + length content ≤ length bytes.now) }
{
    let len = len as usize;
    let rest = &bytes[place..];
    if rest.len() < len {
        return Err(End::Fault(ImageFault {
            place: place as u64,
        }));
    }
    Ok(Bytes::from_slice(alloc, &rest[..len])?)
}

/// The segment that begins at a place, behind what is taken.
#[tactic(auto, unfolding(crate::specs::Reading::segment_at))]
fn segment(
    alloc: Global,
    stack: Stack,
    taken: Taken,
    bytes: &[u8],
    place: usize,
) -> Result<Segment, End<ImageFault>>
    requires stack { stack.at + stack.size ≤ 2 ^ 47 }
    requires loaded { taken.loaded ≤ 2 ^ 24 }
    ensures segment { Gives (λ s. s) result (segment_at stack.at stack.size taken.end taken.loaded bytes.now place) }
    ensures within { IfOk result (λ s. place + 16 + length s.bytes ≤ length bytes.now) }
    ensures high { IfOk result (λ s. s.at + length s.bytes ≤ 2 ^ 47) }
    ensures loaded { IfOk result (λ s. taken.loaded + length s.bytes ≤ 2 ^ 24) }
{
    let at = address_at(taken.end, bytes, place)?;
    let len = length_at(stack, taken.loaded, at, bytes, place + 8)?;
    let bytes = content(alloc, bytes, place + 16, len)?;
    Ok(Segment { at, bytes })
}

/// So many segments from a place on, and the place behind them.
fn segments(
    alloc: Global,
    stack: Stack,
    bytes: &[u8],
    count: u64,
    place: usize,
) -> Result<(Seq<Segment>, usize), End<ImageFault>>
    requires stack { stack.at + stack.size ≤ 2 ^ 47 }
    requires loaded { stack.size ≤ 2 ^ 24 }
    ensures { Gives (λ x. (x.0, x.1)) result (segments_at stack.at stack.size 4096 stack.size bytes.now count place) }
{
    let mut segments = Seq::new(alloc);
    let mut taken = Taken {
        end: LOWEST,
        loaded: stack.size,
    };
    let mut place = place;
    for _ in 0..count {
        let next = segment(alloc, stack, taken, bytes, place)?;
        let len = next.bytes.len();
        place += 16 + len;
        taken = Taken {
            end: next.at + len as u64,
            loaded: taken.loaded + len as u64,
        };
        segments.push(next)?;
    }
    Ok((segments, place))
}

/// All of the bytes.
#[tactic(auto, unfolding(crate::specs::Reading::image_of))]
fn image(alloc: Global, bytes: &[u8]) -> Result<Image, End<ImageFault>>
    ensures { Gives (λ image. image) result (image_of bytes.now) }
{
    if !bytes.starts_with(&MAGIC) {
        return Err(End::Fault(ImageFault { place: 0 }));
    }
    let entry = entry_at(bytes, 8)?;
    let stack_at = stack_address_at(bytes, 16)?;
    let stack_size = stack_size_at(stack_at, bytes, 24)?;
    let count = count_at(bytes, 32)?;
    let stack = Stack {
        at: stack_at,
        size: stack_size,
    };
    let (segments, end) = segments(alloc, stack, bytes, count, 40)?;
    if end != bytes.len() {
        return Err(End::Fault(ImageFault { place: end as u64 }));
    }
    Ok(Image {
        entry,
        stack_at,
        stack_size,
        segments,
    })
}

/// The image that the bytes spell, all of the bytes.
pub fn read_image(alloc: Global, bytes: &[u8]) -> Result<Image, End<ImageFault>>
    // What is read is spelled so.
    ensures found { IfOk result (λ image. image_bytes image bytes.now) }
    // What is spelled so is read, unless memory runs out.
    ensures only { (image : Image) → image_bytes image bytes.now → Gives (λ read. read) result (Ok image) }
    // Which fault it is.
    ensures fault { (place : ℕ) → result ≡ Err (Fault (record { place = place })) → image_fault bytes.now place }
{
    image(alloc, bytes)
}
