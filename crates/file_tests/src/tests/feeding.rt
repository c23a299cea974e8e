//! Files that come in pieces, and files that are cut.

ghost use Rattle.std.specs.Prelude.{◌<◌};

use super::words::*;
use gr_base::End;
use gt_model::Ir;
use gt_read::{Feeder, FormatFault, read_file};
use std::alloc::Global;
use std::test::Fail;

/// A file whose graph stands in two records.
const MERGED: &str = "ir 3004 3a26 1224 0a10 u02 1210 u03 3a26 1224 0a10 u04 1210 u05";

/// A file of one module, spelled canonically.
const MODULE: &str = "
    ir 1a ( 0a10 u02 3007 4a ( 0a10 u09 1a ( 'main ) 2a10 u05 )
    62 ( 0a10 u03 12 ( '.text ) 2a ( 0a10 u04 12 ( 12 ( 0a10 u05 1808 ) )
    1a ( 0804 12 ( 12 ( 1210 u09 ) ) ) 3008 3a ( 200080d2 01000090 ) ) 32 ( 01030405 ) )
    920110 u05 980102 ) 3004";

/// What a reader answers, in words: the IR with all its fields, or the fault.
fn answer(alloc: Global, read: Result<Ir, End<FormatFault>>) -> Result<String, Fail> {
    match read {
        Ok(ir) => Ok(format!(in alloc; "{ir:?}")?),
        Err(End::Fault(fault)) => Ok(format!(in alloc; "{fault}")?),
        Err(End::Memory) => Err("no memory".into()),
    }
}

/// The answer to the bytes in pieces of so many, where no piece is refused.
fn fed_by(alloc: Global, bytes: &[u8], size: usize) -> Result<String, Fail>
    requires { 0 < size }
{
    let mut feeder = Feeder::new(alloc);
    for piece in bytes.chunks(size) {
        feeder.feed(piece)?;
    }
    answer(alloc, feeder.finish())
}

/// The answer to the bytes in two pieces, the first of so many.
fn fed_twice(alloc: Global, bytes: &[u8], count: usize) -> Result<String, Fail> {
    let mut feeder = Feeder::new(alloc);
    feeder.feed(bytes.get(..count).ok_or("a cut behind the end")?)?;
    feeder.feed(bytes.get(count..).ok_or("a cut behind the end")?)?;
    answer(alloc, feeder.finish())
}

#[test]
fn a_file_may_be_cut_anywhere(rt: HostRuntime) -> Result<(), Fail> {
    let alloc = rt.alloc();
    let smallest = bytes_of(alloc, "ir", VERSION)?;
    let small = answer(alloc, read_file(alloc, smallest.as_slice()))?;
    assert!(rt; small.starts_with("Ir"));
    for count in 0..=smallest.len() {
        assert_eq!(rt; fed_twice(alloc, smallest.as_slice(), count)?, small);
    }
    let merged = bytes_of(alloc, MERGED, "")?;
    let whole = answer(alloc, read_file(alloc, merged.as_slice()))?;
    assert_eq!(rt; fed_by(alloc, merged.as_slice(), 1)?, whole);
    Ok(())
}

#[test]
fn a_cut_record_is_told_at_the_end(rt: HostRuntime) -> Result<(), Fail> {
    let alloc = rt.alloc();
    let smallest = bytes_of(alloc, "ir", VERSION)?;
    for (count, fault) in [(27, "truncated at 26"), (20, "truncated at 8")] {
        let cut = smallest.get(..count).ok_or("a cut behind the end")?;
        assert_eq!(rt; fed_by(alloc, cut, 3)?.as_str(), fault);
    }
    Ok(())
}

/// The fault of the first so many bytes of a file of one module, of which there are as many.
fn fault_of_cut(alloc: Global, count: usize, all: usize) -> Result<String, Fail> {
    let left = all.saturating_sub(count);
    Ok(match count {
        0..8 => format!(in alloc; "prefix at {count}")?,
        8 | 26 => String::from_str(alloc, "version 4 and 0")?,
        9..26 => String::from_str(alloc, "truncated at 8")?,
        _ if left == 2 => String::from_str(alloc, "version 4 and 0")?,
        _ if left == 1 => format!(in alloc; "truncated at {}", count.saturating_sub(1))?,
        _ => String::from_str(alloc, "truncated at 26")?,
    })
}

#[test]
fn every_cut_of_a_file_is_refused(rt: HostRuntime) -> Result<(), Fail> {
    let alloc = rt.alloc();
    let module = bytes_of(alloc, MODULE, "")?;
    assert!(rt; answer(alloc, read_file(alloc, module.as_slice()))?.starts_with("Ir"));
    for count in 0..module.len() {
        let cut = module.get(..count).ok_or("a cut behind the end")?;
        let fault = fault_of_cut(alloc, count, module.len())?;
        assert_eq!(rt; answer(alloc, read_file(alloc, cut))?, fault);
        assert_eq!(rt; fed_by(alloc, cut, 3)?, fault);
    }
    Ok(())
}
