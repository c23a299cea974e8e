//! Programs that run to their end.

use bare_image::read_image;
use gr_base::Bytes;
use num_run::{RunEnd, Trap, run_image};
use std::alloc::{AllocError, Global};
use std::test::Fail;

/// The head of an image with its code at 0x1000 and a stack of 0x1000 bytes at 0x10000, up to the length of the code.
const HEAD: [u8; 48] = [
    0x47, 0x52, 0x49, 0x4d, 0x47, 0x30, 0x30, 0x31, 0x00, 0x10, 0, 0, 0, 0, 0, 0, //
    0x00, 0x00, 0x01, 0, 0, 0, 0, 0, 0x00, 0x10, 0, 0, 0, 0, 0, 0, //
    0x01, 0, 0, 0, 0, 0, 0, 0, 0x00, 0x10, 0, 0, 0, 0, 0, 0,
];

/// A program, its input, how many steps it may do, and what is then seen.
struct Row {
    words: &'static [u32],
    input: &'static [u8],
    may: u64,
    steps: u64,
    end: RunEnd,
    output: &'static [u8],
}

const ROWS: [Row; 22] = [
    // movz x0, #3; movz x8, #93; svc #0
    Row {
        words: &[0xd2800060, 0xd2800ba8, 0xd4000001],
        input: b"",
        may: 0,
        steps: 0,
        end: RunEnd::Running,
        output: b"",
    },
    Row {
        words: &[0xd2800060, 0xd2800ba8, 0xd4000001],
        input: b"",
        may: 2,
        steps: 2,
        end: RunEnd::Running,
        output: b"",
    },
    Row {
        words: &[0xd2800060, 0xd2800ba8, 0xd4000001],
        input: b"",
        may: 3,
        steps: 3,
        end: RunEnd::Exit(3),
        output: b"",
    },
    Row {
        words: &[0xd2800060, 0xd2800ba8, 0xd4000001],
        input: b"",
        may: 9,
        steps: 3,
        end: RunEnd::Exit(3),
        output: b"",
    },
    // the same with brk #0, and with the status 0x103
    Row {
        words: &[0xd2800060, 0xd2800ba8, 0xd4200000],
        input: b"",
        may: 9,
        steps: 3,
        end: RunEnd::Trap(Trap::Break(0)),
        output: b"",
    },
    Row {
        words: &[0xd2802060, 0xd2800ba8, 0xd4000001],
        input: b"",
        may: 9,
        steps: 3,
        end: RunEnd::Exit(3),
        output: b"",
    },
    // hint #0 and hint #34 are steps
    Row {
        words: &[0xd503201f, 0xd503245f, 0xd2800ba8, 0xd4000001],
        input: b"",
        may: 9,
        steps: 4,
        end: RunEnd::Exit(0),
        output: b"",
    },
    // reads up to 16 bytes onto the stack, finds the end of the input, writes three bytes and exits with their number
    Row {
        words: &[
            0xd2800000, 0xd2a00021, 0xd2800202, 0xd28007e8, 0xd4000001, 0xd2800000, 0xd4000001,
            0xd2800020, 0xd2800062, 0xd2800808, 0xd4000001, 0xd2800ba8, 0xd4000001,
        ],
        input: b"hi\n",
        may: 99,
        steps: 13,
        end: RunEnd::Exit(3),
        output: b"hi\n",
    },
    // movz x0, #0; movz x1, #0x1014; movz x2, #4; movz x8, #63; svc #0, and then the word that was read: movz x0, #7
    Row {
        words: &[
            0xd2800000, 0xd2820281, 0xd2800082, 0xd28007e8, 0xd4000001, 0xffffffff, 0xd2800ba8,
            0xd4000001,
        ],
        input: &[0xe0, 0x00, 0x80, 0xd2, 0x55],
        may: 99,
        steps: 8,
        end: RunEnd::Exit(7),
        output: b"",
    },
    // writes a byte at 0x2000, where none is mapped; two bytes of which the second is behind the stack; and none at 0x2000
    Row {
        words: &[0xd2800020, 0xd2840001, 0xd2800022, 0xd2800808, 0xd4000001],
        input: b"",
        may: 9,
        steps: 5,
        end: RunEnd::Trap(Trap::Fault),
        output: b"",
    },
    Row {
        words: &[
            0xd2800020, 0xd2a00021, 0xf281ffe1, 0xd2800042, 0xd2800808, 0xd4000001,
        ],
        input: b"",
        may: 9,
        steps: 6,
        end: RunEnd::Trap(Trap::Fault),
        output: b"",
    },
    Row {
        words: &[
            0xd2800020, 0xd2840001, 0xd2800808, 0xd4000001, 0xd2800ba8, 0xd4000001,
        ],
        input: b"",
        may: 9,
        steps: 6,
        end: RunEnd::Exit(0),
        output: b"",
    },
    // behind the last word
    Row {
        words: &[0xd503201f],
        input: b"",
        may: 9,
        steps: 2,
        end: RunEnd::Trap(Trap::Fault),
        output: b"",
    },
    // a word in no row, movz with hw 2 of 32 bits, and udf #7
    Row {
        words: &[0xffffffff],
        input: b"",
        may: 9,
        steps: 1,
        end: RunEnd::Trap(Trap::Undecoded),
        output: b"",
    },
    Row {
        words: &[0x52c00000],
        input: b"",
        may: 9,
        steps: 1,
        end: RunEnd::Trap(Trap::Undecoded),
        output: b"",
    },
    Row {
        words: &[0x00000007],
        input: b"",
        may: 9,
        steps: 1,
        end: RunEnd::Trap(Trap::Udf(7)),
        output: b"",
    },
    // call 1, an immediate of 1, a write to 0 and a read from 1
    Row {
        words: &[0xd2800028, 0xd4000001],
        input: b"",
        may: 9,
        steps: 2,
        end: RunEnd::Trap(Trap::BadCall),
        output: b"",
    },
    Row {
        words: &[0xd2800ba8, 0xd4000021],
        input: b"",
        may: 9,
        steps: 2,
        end: RunEnd::Trap(Trap::BadCall),
        output: b"",
    },
    Row {
        words: &[0xd2800808, 0xd4000001],
        input: b"",
        may: 9,
        steps: 2,
        end: RunEnd::Trap(Trap::BadCall),
        output: b"",
    },
    Row {
        words: &[0xd2800020, 0xd28007e8, 0xd4000001],
        input: b"a",
        may: 9,
        steps: 3,
        end: RunEnd::Trap(Trap::BadCall),
        output: b"",
    },
    // movn w0, #0x54; movk x0, #0xffff, lsl #16; exit
    Row {
        words: &[0x12800a80, 0xf2bfffe0, 0xd2800ba8, 0xd4000001],
        input: b"",
        may: 9,
        steps: 4,
        end: RunEnd::Exit(0xab),
        output: b"",
    },
    // movz x0, #5; udiv x0, x0, x1; exit
    Row {
        words: &[0xd28000a0, 0x9ac10800, 0xd2800ba8, 0xd4000001],
        input: b"",
        may: 9,
        steps: 4,
        end: RunEnd::Exit(0),
        output: b"",
    },
];

fn image_bytes(alloc: Global, words: &[u32]) -> Result<Bytes, AllocError> {
    let mut bytes = Bytes::from_slice(alloc, &HEAD)?;
    bytes.extend_from_slice(&(words.len() as u64).wrapping_mul(4).to_le_bytes())?;
    for word in words {
        bytes.extend_from_slice(&word.to_le_bytes())?;
    }
    Ok(bytes)
}

#[test]
fn programs_run_to_their_end(rt: HostRuntime) -> Result<(), Fail> {
    for row in &ROWS {
        assert!(rt; row.may <= 10_000_000);
        let bytes = image_bytes(rt.alloc(), row.words)?;
        let image = read_image(rt.alloc(), bytes.as_slice())?;
        let report = run_image(rt.alloc(), &image, row.input, row.may)?;
        assert_eq!(rt; report.steps, row.steps);
        assert_eq!(rt; report.end, row.end);
        assert_eq!(rt; report.output.as_slice(), row.output);
    }
    Ok(())
}

/// Sixteen writes of the stack's 2 ^ 20 bytes fill the output, and one byte more is too many.
#[test]
fn output_has_a_limit(rt: HostRuntime) -> Result<(), Fail> {
    let mut words = vec![in rt.alloc(); 0xd2800808, 0xd2a00021, 0xd2a00202]?;
    for _ in 0..16 {
        words.push(0xd2800020)?;
        words.push(0xd4000001)?;
    }
    words.extend_from_slice(&[0xd2800020, 0xd2800022, 0xd4000001])?;
    let mut bytes = image_bytes(rt.alloc(), &words)?.into_vec();
    assert!(rt; bytes.len() > 26);
    bytes[25] = 0;
    bytes[26] = 0x10;
    let image = read_image(rt.alloc(), &bytes)?;
    let report = run_image(rt.alloc(), &image, b"", 99)?;
    assert_eq!(rt; report.steps, 38);
    assert_eq!(rt; report.end, RunEnd::Trap(Trap::OutputFull));
    assert_eq!(rt; report.output.len(), 16_777_216);
    Ok(())
}
