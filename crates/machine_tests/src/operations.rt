//! Instructions as operations.

use a64_decode::decode;
use a64_inst::{Op, Sum, Unary, Width};
use a64_ops::ops;
use std::test::Fail;

/// A word and its operations.
struct Row(u32, &'static [Op]);

const ROWS: [Row; 4] = [
    // mov x0, x1: a copy
    Row(
        0xaa0103e0,
        &[
            Op::Read {
                stack: false,
                register: 1,
            },
            Op::Copy(0),
            Op::Write {
                stack: false,
                register: 0,
                value: 1,
            },
        ],
    ),
    // blr x30: the target is read before the link
    Row(
        0xd63f03c0,
        &[
            Op::Read {
                stack: false,
                register: 30,
            },
            Op::Link,
            Op::Jump(0),
        ],
    ),
    // nop
    Row(0xd503201f, &[]),
    // stp x0, x2, [sp, #-16]!: both registers are read before the first access, and the base moves last
    Row(
        0xa9bf0be0,
        &[
            Op::Read {
                stack: true,
                register: 31,
            },
            Op::Number(0xfffffffffffffff0),
            Op::Sum {
                sum: Sum::Add,
                width: Width::X,
                first: 0,
                second: 1,
            },
            Op::Number(8),
            Op::Sum {
                sum: Sum::Add,
                width: Width::X,
                first: 2,
                second: 3,
            },
            Op::Read {
                stack: false,
                register: 0,
            },
            Op::Unary {
                function: Unary::Extend {
                    option: 3,
                    amount: 0,
                },
                width: Width::X,
                value: 5,
            },
            Op::Read {
                stack: false,
                register: 2,
            },
            Op::Unary {
                function: Unary::Extend {
                    option: 3,
                    amount: 0,
                },
                width: Width::X,
                value: 7,
            },
            Op::Store {
                bytes: 8,
                value: 6,
                at: 2,
            },
            Op::Store {
                bytes: 8,
                value: 8,
                at: 4,
            },
            Op::Write {
                stack: true,
                register: 31,
                value: 2,
            },
        ],
    ),
];

#[test]
fn instructions_in_operations(rt: HostRuntime) -> Result<(), Fail> {
    for row in &ROWS {
        let inst = decode(row.0).expect(&rt, "a word in a row");
        assert!(rt; inst.is_allowed());
        let list = ops(&inst);
        assert_eq!(rt; list.as_slice(), row.1, "word {:08x}", row.0);
    }
    Ok(())
}
