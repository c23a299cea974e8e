use gr_base::{Desk, End, HonestDesk, MemDesk, ReadEnd, RealDesk, read_whole, write_whole};
use std::alloc::Global;
use std::fs;
use std::test::Fail;

/// Forty bytes, which a desk that handles 16 at a time takes three calls for.
const BYTES: &[u8] = b"0123456789abcdefghijklmnopqrstuvwxyzABCD";

fn reads<D: Desk>(alloc: Global, desk: &mut D, name: &str, bytes: &[u8]) -> bool {
    match read_whole(alloc, desk, name) {
        Ok(read) => read.as_slice() == bytes,
        Err(_) => false,
    }
}

fn is_refused<D: Desk>(alloc: Global, desk: &mut D, name: &str) -> bool {
    let read = read_whole(alloc, desk, name);
    matches!(read, Err(End::Fault(ReadEnd::Fault)))
}

fn writes<D: Desk>(desk: &mut D, name: &str, bytes: &[u8]) -> bool {
    write_whole(desk, name, bytes).is_ok()
}

#[test]
fn desks_in_memory(rt: HostRuntime) -> Result<(), Fail> {
    let alloc = rt.alloc();
    let mut honest = HonestDesk::new(alloc)?;
    assert!(rt; writes(&mut honest, "out", BYTES));
    assert!(rt; reads(alloc, &mut honest, "out", BYTES));
    assert!(rt; is_refused(alloc, &mut honest, "other"));
    // The sixth call is the second one of the write.
    let mut desk = MemDesk::new(alloc, 16, &[6])?;
    desk.put("in", BYTES)?;
    assert!(rt; reads(alloc, &mut desk, "in", BYTES));
    assert!(rt; !writes(&mut desk, "out", BYTES));
    assert_eq!(rt; desk.get("out").map(|held| held.len()), Some(0));
    Ok(())
}

#[test]
fn real_files_are_read_and_written(rt: HostRuntime) -> Result<(), Fail> {
    let alloc = rt.alloc();
    let mut desk = RealDesk::new(alloc, &rt);
    assert!(rt; writes(&mut desk, "real_desk.bin", BYTES));
    assert!(rt; reads(alloc, &mut desk, "real_desk.bin", BYTES));
    // A read from the start sees what was written since.
    assert!(rt; writes(&mut desk, "real_desk.bin", b"short"));
    assert!(rt; reads(alloc, &mut desk, "real_desk.bin", b"short"));
    fs::remove_file(&rt, "real_desk.bin")?;

    assert!(rt; is_refused(alloc, &mut desk, "real_desk.bin"));
    assert!(rt; is_refused(alloc, &mut desk, "."));
    assert!(rt; !writes(&mut desk, "/dev/full", BYTES));
    Ok(())
}
