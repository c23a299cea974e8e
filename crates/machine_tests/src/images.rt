//! Images and their bytes.

use bare_image::{Image, ImageFault, read_image, write_image};
use gr_base::End;
use std::test::Fail;

/// A program of three words at 0x1000 that exits with 3, and a stack of 0x1000 bytes at 0x10000.
const EXIT_THREE: [u8; 68] = [
    0x47, 0x52, 0x49, 0x4d, 0x47, 0x30, 0x30, 0x31, 0x00, 0x10, 0, 0, 0, 0, 0, 0, //
    0x00, 0x00, 0x01, 0, 0, 0, 0, 0, 0x00, 0x10, 0, 0, 0, 0, 0, 0, //
    0x01, 0, 0, 0, 0, 0, 0, 0, 0x00, 0x10, 0, 0, 0, 0, 0, 0, //
    0x0c, 0, 0, 0, 0, 0, 0, 0, 0x60, 0x00, 0x80, 0xd2, 0xa8, 0x0b, 0x80, 0xd2, //
    0x01, 0x00, 0x00, 0xd4,
];

/// Two bytes to change, and the place that is then at fault.
const BROKEN: [(usize, u8, usize, u8, u64); 18] = [
    // another letter
    (7, b'2', 7, b'2', 0),
    // an entry that is no multiple of 4
    (8, 2, 8, 2, 8),
    // a stack address that is no multiple of 16, and one below 4096
    (16, 8, 16, 8, 16),
    (18, 0, 17, 0x0f, 16),
    // a stack size that is no multiple of 16, one of 0, one above 2 ^ 24, and a stack that ends above 2 ^ 47
    (24, 8, 24, 8, 24),
    (25, 0, 25, 0, 24),
    (24, 0x10, 27, 1, 24),
    (21, 0x80, 18, 0, 24),
    // more than 2 ^ 24 segments, and as many as that in 68 bytes
    (32, 1, 35, 1, 32),
    (32, 0, 35, 1, 68),
    // an address below 4096
    (40, 0xff, 41, 0x0f, 40),
    // no bytes, and a segment that ends above 2 ^ 47
    (48, 0, 48, 0, 48),
    (45, 0x80, 45, 0x80, 48),
    // the segment's last byte is the stack's first, and the segment lies in the stack
    (40, 0xf5, 41, 0xff, 48),
    (41, 0x0f, 42, 0x01, 48),
    // bytes and stack are above 2 ^ 24
    (25, 0, 27, 1, 48),
    // a byte is missing, and one is left over
    (48, 13, 48, 13, 56),
    (48, 11, 48, 11, 67),
];

fn fault_place(read: Result<Image, End<ImageFault>>) -> Option<u64> {
    match read {
        Err(End::Fault(fault)) => Some(fault.place),
        _ => None,
    }
}

fn with_byte(bytes: &mut [u8; 68], at: usize, byte: u8) {
    if at < 68 {
        bytes[at] = byte;
    }
}

#[test]
fn each_broken_rule_is_at_its_field(rt: HostRuntime) {
    for (first, byte, second, other, place) in BROKEN {
        let mut bytes = EXIT_THREE;
        with_byte(&mut bytes, first, byte);
        with_byte(&mut bytes, second, other);
        assert_eq!(rt; fault_place(read_image(rt.alloc(), &bytes)), Some(place));
    }
}

/// Each front of the image is cut in the field that begins last in it.
#[test]
fn a_cut_image_is_at_fault_in_the_cut_field(rt: HostRuntime) {
    for len in 0..68usize {
        let place = match len {
            0..8 => 0,
            8..56 => len as u64 / 8 * 8,
            _ => 56,
        };
        let read = read_image(rt.alloc(), &EXIT_THREE[..len]);
        assert_eq!(rt; fault_place(read), Some(place));
    }
}

/// Segments at 0xfff0, 0x11000 and 0x11003 of 16, 3 and 1 bytes: each begins where the stack or the one before ends.
const TOUCHING: [u8; 108] = [
    0x47, 0x52, 0x49, 0x4d, 0x47, 0x30, 0x30, 0x31, 0xf0, 0xff, 0, 0, 0, 0, 0, 0, //
    0x00, 0x00, 0x01, 0, 0, 0, 0, 0, 0x00, 0x10, 0, 0, 0, 0, 0, 0, //
    0x03, 0, 0, 0, 0, 0, 0, 0, 0xf0, 0xff, 0x00, 0, 0, 0, 0, 0, //
    0x10, 0, 0, 0, 0, 0, 0, 0, 1, 1, 1, 1, 1, 1, 1, 1, //
    1, 1, 1, 1, 1, 1, 1, 1, 0x00, 0x10, 0x01, 0, 0, 0, 0, 0, //
    0x03, 0, 0, 0, 0, 0, 0, 0, 2, 2, 2, 0x03, 0x10, 0x01, 0, 0, //
    0, 0, 0, 0x01, 0, 0, 0, 0, 0, 0, 0, 3,
];

#[test]
fn reads_and_writes_again(rt: HostRuntime) -> Result<(), Fail> {
    let image = read_image(rt.alloc(), &EXIT_THREE)?;
    assert_eq!(rt; image.entry, 0x1000);
    assert_eq!(rt; image.segments.len(), 1);
    let bytes = write_image(rt.alloc(), &image)?;
    assert_eq!(rt; bytes.as_slice(), EXIT_THREE.as_slice());
    let image = read_image(rt.alloc(), &TOUCHING)?;
    assert_eq!(rt; image.segments.len(), 3);
    let bytes = write_image(rt.alloc(), &image)?;
    assert_eq!(rt; bytes.as_slice(), TOUCHING.as_slice());
    Ok(())
}

/// The third segment begins at the second's last byte.
#[test]
fn segments_ascend(rt: HostRuntime) {
    let mut bytes = TOUCHING;
    bytes[91] = 0x02;
    assert_eq!(rt; fault_place(read_image(rt.alloc(), &bytes)), Some(91));
}
