//! Files and their canonical spelling: the front, the words behind it as they are read, and as they are written.

use super::words::*;
use gt_read::read_file;
use gt_write::write_file;
use std::alloc::Global;
use std::test::Fail;

/// Of a plain field the last record counts, and a value at its default is left out.
const PLAIN: &str = "
    ir : nothing : nothing
    ir : 0a00 0a10 u01 : nothing
    module : 1800 : nothing
    module : 18 808004 : 18 808004
    module : 18 8580808010 : 18 8580808010
    module : 18 ffffffffffffffffff01 : 18 ffffffffffffffffff01
    module : 1805 1807 : 1807
    module : 1805 18 8000 : nothing
    module : 1805 19 0100000000000000 1a01 ff : 1805
    -- a negative number has ten bytes, and no sign in its lowest bit
    module : 200a : 200a
    module : 20 ffffffff0f : 20 ffffffff0f
    module : 20 fdffffffffffffffff01 : 20 fdffffffffffffffff01
    module : 20 80808080808080808001 : 20 80808080808080808001
    -- an enumeration is cut to 32 bits
    module : 30 ffffffff07 : 30 ffffffff07
    module : 30 ffffffff0f : 30 ffffffffffffffffff01
    module : 30 8080808008 : 30 80808080f8ffffffff01
    module : 30 8080808010 : nothing
    module : 30 8780808010 : 3007
    -- a flag is true for any number but 0
    symbol : 3002 : 3001
    symbol : 30 80808080808080808001 : 3001
    symbol : 30 8000 : nothing
    symbol : 3001 3000 : nothing
    -- texts, and identifiers that may be absent
    section : 12 ( 'a ) 12 ( '.text ) : 12 ( '.text )
    section : 12 ( 'a ) 12 ( ) : nothing
    section : 12 ( 'a ) 1005 : 12 ( 'a )
    section : 12 ( 00 c3a9 e282ac f09f9880 ) : 12 ( 00 c3a9 e282ac f09f9880 )
    module : 920110 u05 920100 : nothing
    module : 920101 05 920110 u05 : 920110 u05
    -- numbers of their own and in packed runs are taken in order
    section : 3001 3202 0203 3004 3200 3201 05 : 3205 0102030405
    section : 320a ffffffffffffffffff01 30 ffffffff0f : 3214 ffffffffffffffffff01 ffffffffffffffffff01
    section : 3207 8780808010 8000 35 01000000 31 0200000000000000 : 3202 0700";

/// Of the members of a oneof the last counts, with the last unbroken run of its records. A set one is written
/// also at its default.
const ONEOFS: &str = "
    symbol : 1000 : 1000
    symbol : 1005 2a10 u05 : 2a10 u05
    symbol : 2a10 u05 1006 : 1006
    symbol : 1005 2a10 u09 1006 : 1006
    symbol : 2a00 1005 : 1005
    symbol : 1005 2807 : 1005
    interval : 12 ( 0807 ) : 12 ( 0807 )
    interval : 12 ( 12 ( 0a10 u05 1804 ) 12 ( 2001 ) ) : 12 ( 12 ( 0a10 u05 1804 2001 ) )
    interval : 12 ( 12 ( 0a10 u05 1804 ) 4805 0808 12 ( 2001 ) ) : 12 ( 0808 12 ( 0a10 u05 1804 2001 ) )
    interval : 12 ( 12 ( 0a10 u05 1804 ) 1a ( 0a10 u06 ) 12 ( 0a10 u07 2001 ) ) : 12 ( 12 ( 0a10 u07 2001 ) )
    interval : 12 ( 1a ( 0a10 u06 ) 6201 ff 1a ( 1802 ) 0801 ) : 12 ( 0801 1a ( 0a10 u06 1802 ) )
    interval : 12 ( 12 ( ) 1a ( 0a10 u06 ) ) : 12 ( 1a ( 0a10 u06 ) )
    interval : 1a ( 0804 12 ( 12 ( 0805 ) 2202 0103 12 ( 1210 u09 ) ) ) : 1a ( 0804 12 ( 12 ( 0805 1210 u09 ) 2202 0103 ) )
    interval : 1a ( 0804 12 ( 12 ( 0805 ) 1a ( 0802 ) 12 ( 1210 u09 ) ) ) : 1a ( 0804 12 ( 12 ( 1210 u09 ) ) )
    interval : 1a ( 0804 12 ( 1a ( 0802 1a10 u09 ) 0a01 ff 1a ( 1003 ) ) ) : 1a ( 0804 12 ( 1a ( 0802 1003 1a10 u09 ) ) )
    interval : 1a ( 0804 12 ( 12 ( 0805 1210 u09 ) 1a ( ) ) ) : 1a ( 0804 12 ( 1a ( ) ) )
    interval : 1a ( 0804 12 ( 12 ( 0805 ) 1805 ) ) : 1a ( 0804 12 ( 12 ( 0805 ) ) )
    interval : 1a ( 0804 12 ( 12 ( 1201 09 ) 1a ( ) ) ) : 1a ( 0804 12 ( 1a ( ) ) )";

/// A map has each key once, with the value of its last entry, in order; an entry has both of its fields.
const MAPS: &str = "
    interval : 1a00 : 1a ( 0800 12 ( ) )
    interval : 1a1a 0804 1216 1214 0801 1210 u08 1a1a 0804 1216 1214 0802 1210 u08 : 1a1a 0804 1216 1214 0802 1210 u08
    interval : 1a ( 0804 12 ( 12 ( 0801 ) ) 12 ( 12 ( 1210 u08 ) ) ) : 1a ( 0804 12 ( 12 ( 0801 1210 u08 ) ) )
    interval : 1a ( 0804 12 ( 12 ( 1201 08 ) ) ) 1a ( 0804 ) : 1a ( 0804 12 ( ) )
    interval : 1a ( 08 8002 ) 1a ( 0803 ) 1a ( 08 ffffffffffffffffff01 ) : 1a ( 0803 12 ( ) ) 1a ( 08 8002 12 ( ) ) 1a ( 08 ffffffffffffffffff01 12 ( ) )
    ir : 2a ( 0a ( 'b ) ) 2a ( 0a ( 'aa ) ) 2a ( ) 2a ( 0a ( 'a ) ) : 2a ( 0a ( ) 12 ( ) ) 2a ( 0a ( 'a ) 12 ( ) ) 2a ( 0a ( 'aa ) 12 ( ) ) 2a ( 0a ( 'b ) 12 ( ) )
    ir : 2a ( 0a ( 'a ) 12 ( 0a ( 'x ) ) ) 2a ( 0a ( 'a ) 12 ( 1201 07 ) ) : 2a ( 0a ( 'a ) 12 ( 1201 07 ) )
    ir : 2a ( 12 ( 1202 ff00 0a ( 'no<type ) ) 0a ( 'a ) 0a ( 'b ) ) : 2a ( 0a ( 'b ) 12 ( 0a ( 'no<type ) 1202 ff00 ) )
    module : 8a01 ( 0a ( 'b ) 12 ( 1201 01 ) ) 8a01 ( 0a ( 'a ) ) 8a01 ( 0a ( 'b ) 12 ( 1201 02 ) ) : 8a01 ( 0a ( 'a ) 12 ( ) ) 8a01 ( 0a ( 'b ) 12 ( 1201 02 ) )";

/// Records of unknown fields, and of known ones under other wire types, are skipped and not looked into.
const SKIPPED: &str = "
    ir : 1005 11 0102030405060708 1202 ffff 15 01020304 : nothing
    ir : 20 ffffffffffffffffff01 8080808010 05 faffffffffffffffff01 02 ffff : nothing
    ir : 0800 09 0102030405060708 0d 01020304 1805 2805 : nothing
    ir : 3201 05 31 0500000000000000 35 05000000 3805 3d 01020304 : nothing
    ir : 8a808080808080808000 90808080808080808000 u01 : nothing
    symbol : 2a10 u05 0805 1201 ff 1805 2805 3201 00 : 2a10 u05
    module : 4805 6005 800105 880105 920110 u05 900105 9a0101 05 : 920110 u05";

/// The payloads of an embedded message are read as one; an empty one is there.
const MERGED: &str = "
    ir 3004 : 3a00 : 3a00
    ir 3004 : 3a26 1224 0a10 u02 1210 u03 3a26 1224 0a10 u04 1210 u05 : 3a ( 12 ( 0a10 u02 1210 u03 ) 12 ( 0a10 u04 1210 u05 ) )
    ir 3004 : 3a ( 12 ( 2a00 1210 u03 0a10 u02 ) ) : 3a ( 12 ( 0a10 u02 1210 u03 2a00 ) )
    ir 3004 : 3a ( 12 ( 2a02 0801 0a10 u02 2a00 1210 u03 2a04 1803 1801 ) ) : 3a ( 12 ( 0a10 u02 1210 u03 2a ( 0801 1801 ) ) )
    ir 3004 : 3a ( 12 ( 2a04 0801 1001 2a02 0800 0a10 u02 1210 u03 2805 ) ) : 3a ( 12 ( 0a10 u02 1210 u03 2a ( 1001 ) ) )
    ir 3004 : 3a ( 1a10 u05 ) 3a00 1801 3805 3a ( 12 ( 0a10 u04 1210 u05 ) 1a10 u04 ) : 3a ( 12 ( 0a10 u04 1210 u05 ) 1a10 u05 1a10 u04 )";

/// The canonical spelling of the file in words.
fn recoded(alloc: Global, words: &str, tail: &str) -> Result<Vec<u8>, Fail> {
    let bytes = bytes_of(alloc, words, tail)?;
    let written = write_file(alloc, &read_file(alloc, bytes.as_slice())?)?;
    Ok(Vec::from_slice(alloc, written.as_slice())?)
}

/// Whether the file is written as the row says, and what is written once more as itself.
fn is_right(
    alloc: Global,
    front: &str,
    read: &str,
    written: &str,
    tail: &str,
) -> Result<bool, Fail> {
    let read = format!(in alloc; "{front} {read}")?;
    let written = format!(in alloc; "{front} {written}")?;
    let want = bytes_of(alloc, written.as_str(), tail)?;
    let first = recoded(alloc, read.as_str(), tail)?;
    let second = recoded(alloc, written.as_str(), tail)?;
    Ok(first.as_slice() == want.as_slice() && second.as_slice() == want.as_slice())
}

/// The first row that is wrong, if any.
fn first_wrong<'a>(alloc: Global, rows: &'a str, tail: &str) -> Result<Option<&'a str>, Fail> {
    for row in rows.lines() {
        if let Some((front, words)) = row.split_once(" : nothing")
            && let Some((read, written)) = words.split_once(" : nothing")
            && !is_right(alloc, front, read, written, tail)?
        {
            return Ok(Some(row));
        }
    }
    Ok(None)
}

#[test]
fn what_is_read_is_written_canonically(rt: HostRuntime) -> Result<(), Fail> {
    let alloc = rt.alloc();
    assert_eq!(rt; first_wrong(alloc, PLAIN, VERSION)?, None);
    assert_eq!(rt; first_wrong(alloc, ONEOFS, VERSION)?, None);
    assert_eq!(rt; first_wrong(alloc, MAPS, VERSION)?, None);
    assert_eq!(rt; first_wrong(alloc, SKIPPED, VERSION)?, None);
    assert_eq!(rt; first_wrong(alloc, MERGED, "")?, None);
    Ok(())
}
