use pb_wire::{Cursor, Load, Record, Span, WireFault, WireReason, put_bytes, put_key, put_varint};
use std::test::Fail;

/// A run, a number, eight bytes and four bytes, behind one another, and a record that is cut.
const MESSAGE: [u8; 22] = [
    0x0A, 2, 0x68, 0x69, 0x08, 0xAC, 0x02, 0x11, 1, 0, 0, 0, 0, 0, 0, 0x80, 0x1D, 0x78, 0x56, 0x34,
    0x12, 0x0A,
];

#[test]
fn each_kind_of_load_and_a_fault(rt: HostRuntime) {
    let mut cursor = Cursor::new(&MESSAGE, 8);
    let loads = [
        (8, 1, Load::Run(Span { start: 10, len: 2 })),
        (12, 1, Load::Varint(300)),
        (15, 2, Load::Eight(0x8000_0000_0000_0001)),
        (24, 3, Load::Four(0x1234_5678)),
    ];
    for (place, field, load) in loads {
        let record = Record { place, field, load };
        assert_eq!(rt; cursor.next(), Ok(Some(record)));
    }
    let fault = WireFault {
        place: 29,
        reason: WireReason::Truncated,
    };
    assert_eq!(rt; cursor.next(), Err(fault));
    assert_eq!(rt; cursor.next(), Err(fault));
}

#[test]
fn the_shortest_spellings(rt: HostRuntime) -> Result<(), Fail> {
    let mut out = Vec::new(rt.alloc());
    for value in [0, 127, 128, 300, u64::MAX] {
        put_varint(&mut out, value)?;
    }
    let numbers = [
        0, 0x7F, 0x80, 1, 0xAC, 2, 0xFF, 0xFF, 0xFF, 0xFF, 0xFF, 0xFF, 0xFF, 0xFF, 0xFF, 1,
    ];
    assert_eq!(rt; out.as_slice(), numbers.as_slice());
    out.clear();
    put_key(&mut out, 1, 2)?;
    put_bytes(&mut out, b"hi")?;
    put_key(&mut out, 536_870_911, 5)?;
    let message = [0x0A, 2, 0x68, 0x69, 0xFD, 0xFF, 0xFF, 0xFF, 0x0F];
    assert_eq!(rt; out.as_slice(), message.as_slice());
    Ok(())
}
