use super::{SMALLEST, bytes_of, expect_answer};
use gr_base::HonestDesk;
use gt_read::read_file;
use std::test::Fail;

/// The prefix of a file of version 4.
const PREFIX: &str = "47544952420000 04";

// Files behind the prefix, and what is written behind it: the same, and other spellings of it.
#[test]
fn writes_the_canonical_spelling(rt: HostRuntime) -> Result<(), Fail> {
    let alloc = rt.alloc();
    for (read, written, note) in [
        ("0a10 u01 3004", "0a10 u01 3004", "done bytes=28"),
        // The version before the identifier, and varints of more bytes than they need.
        ("b0008400 8a009000 u01", "0a10 u01 3004", "done bytes=28"),
        // A graph in two records is one graph.
        (
            "0a10 u01 3004 3a26 1224 0a10 u02 1210 u03 3a26 1224 0a10 u04 1210 u05",
            "0a10 u01 3004 3a4c 1224 0a10 u02 1210 u03 1224 0a10 u04 1210 u05",
            "done bytes=106",
        ),
        // A symbol's value, its referent and then a value again: the last run of one member counts.
        (
            "0a10 u01 1a3f 0a10 u07 4a2b 0a10 u08 1005 2a10 u09 1006 1a0161 3004",
            "0a10 u01 1a2b 0a10 u07 4a17 0a10 u08 1006 1a0161 3004",
            "done bytes=73",
        ),
        // Two expressions at one offset: the last one counts.
        (
            "0a10 u01 1a72 0a10 u07 625e 0a10 u03 2a4a 0a10 u04 1a1a 0804 1216 1214 0801 1210 u08 1a1a 0804 1216 1214 0802 1210 u08 3004",
            "0a10 u01 1a56 0a10 u07 6242 0a10 u03 2a2e 0a10 u04 1a1a 0804 1216 1214 0802 1210 u08 3004",
            "done bytes=116",
        ),
        // Tables are written by their names, with a type that nobody parses too.
        (
            "0a10 u01 2a0c 0a0162 1207 0a013f 1202ff00 2a05 0a0161 1200 3004",
            "0a10 u01 2a05 0a0161 1200 2a0c 0a0162 1207 0a013f 1202ff00 3004",
            "done bytes=49",
        ),
        // An empty graph is there, and one that isn't written isn't.
        ("0a10 u01 3004 3a00", "0a10 u01 3004 3a00", "done bytes=30"),
    ] {
        let mut desk = HonestDesk::new(alloc)?;
        let mut file = bytes_of(alloc, PREFIX)?;
        file.extend_from_slice(bytes_of(alloc, read)?.as_slice())?;
        desk.put("a", file.as_slice())?;
        expect_answer(&rt, alloc, &mut desk, "recode in=a out=b", note, 0)?;
        expect_answer(&rt, alloc, &mut desk, "recode out=c in=b", note, 0)?;
        let mut want = bytes_of(alloc, PREFIX)?;
        want.extend_from_slice(bytes_of(alloc, written)?.as_slice())?;
        assert!(rt;
            desk.get("b") == Some(want.as_slice()),
            "what {read} is written as"
        );
        assert!(rt;
            desk.get("c") == Some(want.as_slice()),
            "what {written} is written as"
        );
    }
    Ok(())
}

// The IR of a graph in two records, copied.
#[test]
fn a_copy_means_the_same(rt: HostRuntime) -> Result<(), Fail> {
    let alloc = rt.alloc();
    let file = bytes_of(
        alloc,
        "47544952420000 04 0a10 u01 3004 3a26 1224 0a10 u02 1210 u03 3a26 1224 0a10 u04 1210 u05",
    )?;
    let ir = read_file(alloc, file.as_slice())?;
    let copy = ir.copy(alloc)?;
    let (first, second) = (format!(in alloc; "{ir:?}")?, format!(in alloc; "{copy:?}")?);
    assert_eq!(rt; second.as_str(), first.as_str());
    assert_eq!(rt; copy.cfg.map(|cfg| cfg.edges.len()), Some(2));
    Ok(())
}

#[test]
fn refuses_what_is_no_file(rt: HostRuntime) -> Result<(), Fail> {
    let alloc = rt.alloc();
    for (bytes, note) in [
        ("", "format: prefix at 0"),
        ("47544952420000", "format: prefix at 7"),
        ("47544953420000 04 0a10 u01 3004", "format: prefix at 3"),
        ("47544952420000 04 0a10 u01 3003", "format: version 4 and 3"),
        ("47544952420000 04 0a10 u01", "format: version 4 and 0"),
        (
            "47544952420000 04 0a0f 010101010101010101010101010101 3004",
            "format: UUID of 15 bytes at 8",
        ),
        ("47544952420000 04 3004", "format: UUID of 0 bytes at 0"),
        ("47544952420000 04 0a10 u01 30", "format: truncated at 26"),
        (
            "47544952420000 04 0a10 0101010101010101 0101",
            "format: truncated at 8",
        ),
        (
            "47544952420000 04 0a10 u01 80808080808080808080 01",
            "format: varint at 26",
        ),
        (
            "47544952420000 04 0a10 u01 0b 3004",
            "format: wire type at 26",
        ),
        (
            "47544952420000 04 0a10 u01 0000 3004",
            "format: field zero at 26",
        ),
        (
            "47544952420000 04 0a10 u01 1a03 3a01ff 3004",
            "format: not UTF-8 at 28",
        ),
    ] {
        let mut desk = HonestDesk::new(alloc)?;
        desk.put("a", bytes_of(alloc, bytes)?.as_slice())?;
        expect_answer(&rt, alloc, &mut desk, "recode in=a out=b", note, 7)?;
        assert!(rt; desk.get("b").is_none());
    }
    Ok(())
}

#[test]
fn a_refused_read_names_the_input(rt: HostRuntime) -> Result<(), Fail> {
    let alloc = rt.alloc();
    let mut desk = HonestDesk::new(alloc)?;
    desk.put("a", bytes_of(alloc, SMALLEST)?.as_slice())?;
    for line in ["recode in=none out=b", "recode in=a=b out=b"] {
        expect_answer(&rt, alloc, &mut desk, line, "read fault: in", 3)?;
    }
    assert!(rt; desk.get("b").is_none());
    Ok(())
}

#[test]
fn a_file_has_at_most_64_mebibytes(rt: HostRuntime) -> Result<(), Fail> {
    let alloc = rt.alloc();
    for (length, note, status) in [
        (67_108_864, "format: prefix at 0", 7),
        (67_108_865, "too large: in", 6),
    ] {
        let mut desk = HonestDesk::new(alloc)?;
        desk.put("a", vec![in alloc; 0u8; length]?.as_slice())?;
        expect_answer(&rt, alloc, &mut desk, "recode in=a out=b", note, status)?;
    }
    Ok(())
}
