//! A machine that goes on where it stands.

use bare_image::read_image;
use gr_base::Bytes;
use num_run::{Machine, RunEnd, Trap};
use std::alloc::{AllocError, Global};
use std::test::Fail;

/// The bytes of an image with its entry at 0x1000 and a stack of 0x1000 bytes at 0x10000.
fn image_bytes(alloc: Global, segments: &[(u64, &[u8])]) -> Result<Bytes, AllocError> {
    let mut bytes = Bytes::from_slice(alloc, b"GRIMG001")?;
    for number in &[0x1000, 0x10000, 0x1000, segments.len() as u64] {
        bytes.extend_from_slice(&number.to_le_bytes())?;
    }
    for (at, held) in segments {
        bytes.extend_from_slice(&at.to_le_bytes())?;
        bytes.extend_from_slice(&(held.len() as u64).to_le_bytes())?;
        bytes.extend_from_slice(held)?;
    }
    Ok(bytes)
}

fn words(alloc: Global, words: &[u32]) -> Result<Bytes, AllocError> {
    let mut bytes = Bytes::new(alloc);
    for word in words {
        bytes.extend_from_slice(&word.to_le_bytes())?;
    }
    Ok(bytes)
}

/// movz x0, #3; movz x8, #93; svc #0
#[test]
fn two_steps_and_then_one_exit(rt: HostRuntime) -> Result<(), Fail> {
    let code = words(rt.alloc(), &[0xd2800060, 0xd2800ba8, 0xd4000001])?;
    let bytes = image_bytes(rt.alloc(), &[(0x1000, code.as_slice())])?;
    let image = read_image(rt.alloc(), bytes.as_slice())?;
    let mut machine = Machine::open(rt.alloc(), &image, b"")?;
    assert_eq!(rt; machine.go(2), RunEnd::Running);
    assert_eq!(rt; machine.go(1), RunEnd::Exit(3));
    assert_eq!(rt; machine.go(5), RunEnd::Exit(3));
    assert_eq!(rt; machine.done(), 3);
    assert_eq!(rt; machine.byte_at(4096), Some(0x60));
    assert_eq!(rt; machine.byte_at(4108), None);
    assert_eq!(rt; machine.output().len(), 0);
    Ok(())
}

/// movz x1, #0x1fff; movn x2, #0; str x2, [x1], where two segments meet behind the end of a page; then the same of the
/// last bytes that are mapped, and one byte more
#[test]
fn stores_cross_pages_and_segments(rt: HostRuntime) -> Result<(), Fail> {
    let code = words(
        rt.alloc(),
        &[0xd283ffe1, 0x92800002, 0xf9000022, 0xf8009022, 0xf800a022],
    )?;
    let bytes = image_bytes(
        rt.alloc(),
        &[
            (0x1000, code.as_slice()),
            (0x1ffd, &[1, 2, 3, 4, 5, 6]),
            (0x2003, &[7, 8, 9, 10, 11, 12, 13, 14, 15, 16, 17, 18, 19]),
        ],
    )?;
    let image = read_image(rt.alloc(), bytes.as_slice())?;
    let mut machine = Machine::open(rt.alloc(), &image, b"")?;
    assert_eq!(rt; machine.go(3), RunEnd::Running);
    assert_eq!(rt; machine.byte_at(0x1ffe), Some(2));
    assert_eq!(rt; machine.byte_at(0x1fff), Some(255));
    assert_eq!(rt; machine.byte_at(0x2003), Some(255));
    assert_eq!(rt; machine.byte_at(0x2006), Some(255));
    assert_eq!(rt; machine.byte_at(0x2007), Some(11));
    assert_eq!(rt; machine.go(1), RunEnd::Running);
    assert_eq!(rt; machine.byte_at(0x200f), Some(255));
    assert_eq!(rt; machine.byte_at(0x2010), None);
    assert_eq!(rt; machine.go(1), RunEnd::Trap(Trap::Fault));
    assert_eq!(rt; machine.done(), 5);
    Ok(())
}

/// movz x3, #0; then movz x0, #1, which is done twice and in between is stored over with movz x0, #7: cbnz x3, on; ldr w1
/// of the new word; adr x2; str w1, [x2]; movz x3, #1; b back; on: movz x8, #93; svc #0
#[test]
fn a_word_that_was_stored_over_is_decoded_anew(rt: HostRuntime) -> Result<(), Fail> {
    let code = words(
        rt.alloc(),
        &[
            0xd2800003, 0xd2800020, 0xb50000c3, 0x180000e1, 0x10ffffa2, 0xb9000041, 0xd2800023,
            0x17fffffa, 0xd2800ba8, 0xd4000001, 0xd28000e0,
        ],
    )?;
    let bytes = image_bytes(rt.alloc(), &[(0x1000, code.as_slice())])?;
    let image = read_image(rt.alloc(), bytes.as_slice())?;
    let mut machine = Machine::open(rt.alloc(), &image, b"")?;
    assert_eq!(rt; machine.go(100), RunEnd::Exit(7));
    assert_eq!(rt; machine.done(), 12);
    Ok(())
}
