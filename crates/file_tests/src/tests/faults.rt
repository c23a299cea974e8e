use super::words::*;
use gr_base::End;
use gt_read::read_file;
use std::alloc::Global;
use std::test::Fail;

/// Bytes that are no file, and their fault.
const FAULTS: &str = "
    -- the first wrong or missing byte of the prefix
    nothing = prefix at 0
    'gTIRB 000004 08 = prefix at 0
    'GTIRX 000004 08 = prefix at 4
    'GTIRB = prefix at 5
    'GTIRB 0000 = prefix at 7
    -- a record that doesn't end, has no field, an unknown wire type, or a number without an end
    ir 30 = truncated at 26
    ir 3004 1a13 0a10 u02 = truncated at 28
    ir 3004 1a03 0a10 02 = truncated at 30
    ir 3004 fa = truncated at 28
    ir 3004 21 01020304050607 = truncated at 28
    ir 3004 25 010203 = truncated at 28
    ir 3004 3a ( 1000 02 00 ) = field zero at 32
    ir 3004 1a ( 0b ) = wire type at 30
    ir 3004 28 80808080808080808002 = varint at 28
    ir 3004 1a ( 8080808080808080808001 ) = varint at 30
    -- a run of almost as many bytes as a number can be, and of more
    'GTIRB 000004 0a ffffffffffffffffff01 = truncated at 8
    'GTIRB 000004 0a ffffffffffffffffff02 = varint at 8
    -- in a packed run, at the record of the run
    section 3202 0180 = truncated at 66
    section 3001 3202 0180 3000 = truncated at 68
    section 320b 01 80808080808080808002 = varint at 66
    -- in a payload that is forgotten
    interval 12 ( 12 ( 0a10 u05 18 ) 1a ( 0a10 u06 ) ) = truncated at 108
    interval 1a ( 0804 12 ( 12 ( 00 ) ) ) 1a ( 0804 ) = field zero at 94
    ir 3004 2a ( 0a ( 'a ) 12 ( 1202 00 ) ) 2a ( 0a ( 'a ) ) = truncated at 35
    -- a text that isn't UTF-8, at its record, also where another one counts
    module 12 ( ff ) = not UTF-8 at 46
    module 12 ( 'a ) 12 ( 'b ff ) 12 ( 'c ) = not UTF-8 at 49
    symbol 1a ( c080 ) = not UTF-8 at 66
    section 12 ( eda080 ) 12 ( 'a ) = not UTF-8 at 66
    ir 2a ( 0a ( f4908080 ) ) = not UTF-8 at 28
    ir 2a ( 0a ( 'a ) 12 ( 0a ( c3 ) ) ) 2a ( 0a ( 'a ) ) = not UTF-8 at 33
    -- of a text and a record the lesser place counts
    ir 3004 1a ( 0a10 u02 1201 ff 0b ) = not UTF-8 at 48
    ir 3004 1a ( 0b ) 2a ( 0a01 ff ) = wire type at 30
    ir 3004 1a ( 1201 ff ) 08 = not UTF-8 at 30
    -- both come before the version, and the version before the identifiers
    'GTIRB 000003 0a10 u01 3004 08 = truncated at 28
    'GTIRB 000003 0a00 3004 1a ( 1201 ff ) = not UTF-8 at 14
    'GTIRB 000003 0a00 3004 1a ( ) = version 3 and 4
    'GTIRB 000004 0a10 u01 = version 4 and 0
    'GTIRB 000004 0a10 u01 320104 = version 4 and 0
    'GTIRB 000004 0a10 u01 30 8402 = version 4 and 260
    'GTIRB 000004 0a10 u01 3004 30 ffffffff0f = version 4 and 4294967295";

/// Files but for an identifier, with the version behind the words: the place is that of the first record
/// of the message that lacks it (for the IR 0), or of the last record of its field; a vertex has its own.
const IDENTIFIERS: &str = "
    'GTIRB 000004 0a00 1a ( ) = UUID of 0 bytes at 8
    'GTIRB 000004 1a ( ) = UUID of 0 bytes at 0
    ir 1a ( 3a ( 'a ) ) = UUID of 0 bytes at 26
    ir 3a ( 12 ( 1210 u05 ) ) = UUID of 0 bytes at 28
    ir 3a ( ) 3a ( 12 ( ) ) = UUID of 0 bytes at 30
    interval 12 ( 1a ( ) 1a ( 1802 ) ) = UUID of 0 bytes at 88
    interval 12 ( 12 ( 0a10 u05 ) 1a ( 0a10 u06 ) 12 ( ) 12 ( ) ) = UUID of 0 bytes at 128
    ir 0a11 u01 01 = UUID of 17 bytes at 26
    ir 0a10 u01 0a00 = UUID of 0 bytes at 44
    module 92010f 'aaaaaaaaaaaaaaa = UUID of 15 bytes at 46
    symbol 2a00 = UUID of 0 bytes at 66
    ir 3a ( 1a10 u05 1a11 u05 05 ) = UUID of 17 bytes at 46
    interval 1a ( 12 ( 12 ( 1201 09 ) ) ) = UUID of 1 bytes at 92
    -- the least place counts, whatever the order of the fields
    ir 3a ( 1a00 ) 1a ( ) = UUID of 0 bytes at 28
    ir 1a ( 8201 ( ) 62 ( ) 4a ( ) 0a00 ) = UUID of 0 bytes at 28";

/// The words of a file's fault, or none.
fn fault_text(alloc: Global, words: &str, tail: &str) -> Result<String, Fail> {
    let bytes = bytes_of(alloc, words, tail)?;
    match read_file(alloc, bytes.as_slice()) {
        Err(End::Fault(fault)) => Ok(format!(in alloc; "{fault}")?),
        Ok(_) | Err(End::Memory) => Ok(String::new(alloc)),
    }
}

/// The first row whose file has another fault, if any.
fn first_wrong<'a>(alloc: Global, rows: &'a str, tail: &str) -> Result<Option<&'a str>, Fail> {
    for row in rows.lines() {
        if is_row(row) {
            let (words, fault) = row.split_once(" = ").ok_or("a row without a fault")?;
            let found = fault_text(alloc, words, tail)?;
            if found.as_str() != fault {
                return Ok(Some(row));
            }
        }
    }
    Ok(None)
}

#[test]
fn the_fault_of_each_file(rt: HostRuntime) -> Result<(), Fail> {
    assert_eq!(rt; first_wrong(rt.alloc(), FAULTS, "")?, None);
    assert_eq!(rt; first_wrong(rt.alloc(), IDENTIFIERS, VERSION)?, None);
    Ok(())
}
