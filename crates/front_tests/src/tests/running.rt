use super::expect_answer;
use gr_base::HonestDesk;
use std::alloc::{AllocError, Global};
use std::test::Fail;

// An image that puts 3 into X0 and exits with it, and whose last word is this one.
fn exit_image(alloc: Global, last: [u8; 4]) -> Result<Vec<u8>, AllocError> {
    let mut bytes = Vec::from_slice(alloc, b"GRIMG001")?;
    for number in [0x1000u64, 0x10000, 0x1000, 1, 0x1000, 12] {
        bytes.extend_from_slice(&number.to_le_bytes())?;
    }
    bytes.extend_from_slice(&[0x60, 0x00, 0x80, 0xd2])?;
    bytes.extend_from_slice(&[0xa8, 0x0b, 0x80, 0xd2])?;
    bytes.extend_from_slice(&last)?;
    Ok(bytes)
}

#[test]
fn runs_an_image_for_so_many_steps(rt: HostRuntime) -> Result<(), Fail> {
    let alloc = rt.alloc();
    let image = exit_image(alloc, [0x01, 0x00, 0x00, 0xd4])?;
    let mut desk = HonestDesk::new(alloc)?;
    desk.put("i", image.as_slice())?;
    desk.put("cut", image.get(..67).unwrap_or(&[]))?;
    desk.put("b", exit_image(alloc, [0x00, 0x00, 0x20, 0xd4])?.as_slice())?;
    for (line, note, status) in [
        ("run in=i out=o steps=2", "steps=2 running", 0),
        ("run in=i out=o steps=3", "steps=3 exit 3", 0),
        ("run in=i input=cut out=o", "steps=3 exit 3", 0),
        ("run in=b out=o steps=0010", "steps=3 trap break 0", 0),
        ("run in=cut out=p", "image at 56", 14),
        ("run in=none out=p", "read fault: in", 3),
        ("run in=i input=none out=p", "read fault: input", 3),
        ("run in=i out=p steps=10000001", "usage: word 3", 2),
        ("run in=i out=p steps=-1", "usage: word 3", 2),
        ("run in=i out=p steps=", "usage: word 3", 2),
        ("run in=i out=p module=0", "usage: word 3", 2),
    ] {
        expect_answer(&rt, alloc, &mut desk, line, note, status)?;
    }
    assert!(rt; desk.get("o") == Some(b"".as_slice()));
    assert!(rt; desk.get("p").is_none());
    Ok(())
}
