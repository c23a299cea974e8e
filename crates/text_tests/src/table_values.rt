ghost use Rattle.std.specs.Prelude.{nat_eq, cond};

use aux_codec::{Place, Places, decode_aux, encode_aux, map_places};
use aux_types::parse_type;
use gr_base::{AuxFault, Bytes, End};
use std::alloc::{AllocError, Global};
use std::test::Fail;

/// Whether bytes are decoded, and the value's bytes are these.
fn is_read_and_written(alloc: Global, of: &str, bytes: &[u8]) -> Result<bool, AllocError> {
    let Ok(of) = parse_type(alloc, of) else {
        return Ok(false);
    };
    match decode_aux(alloc, &of, bytes) {
        Ok(value) => Ok(encode_aux(alloc, &of, &value)?.as_slice() == bytes),
        Err(_) => Ok(false),
    }
}

fn is_refused(alloc: Global, of: &str, bytes: &[u8], fault: AuxFault) -> bool {
    let Ok(of) = parse_type(alloc, of) else {
        return false;
    };
    match decode_aux(alloc, &of, bytes) {
        Err(End::Fault(found)) => found == fault,
        _ => false,
    }
}

#[test]
fn values_are_read_and_written(rt: HostRuntime) -> Result<(), Fail> {
    let rows: [(&str, &[u8]); 14] = [
        ("string", &[3, 0, 0, 0, 0, 0, 0, 0, 0x61, 0xC3, 0xA9]),
        ("tuple<bool,UUID>", &[1; 17]),
        ("tuple<Addr,Offset>", &[0xFF; 32]),
        ("int8_t", &[0x80]),
        ("int16_t", &[0, 0x80]),
        ("int32_t", &[0, 0, 0, 0x80]),
        ("int64_t", &[0, 0, 0, 0, 0, 0, 0, 0x80]),
        ("tuple<uint8_t,uint16_t,uint32_t,uint64_t>", &[0xFF; 15]),
        ("tuple<float,double>", &[0xFF; 12]),
        ("sequence<uint8_t>", &[2, 0, 0, 0, 0, 0, 0, 0, 5, 5]),
        ("set<uint8_t>", &[2, 0, 0, 0, 0, 0, 0, 0, 6, 5]),
        (
            "mapping<bool,int8_t>",
            &[2, 0, 0, 0, 0, 0, 0, 0, 1, 7, 0, 7],
        ),
        ("variant<bool,int8_t>", &[0, 0, 0, 0, 0, 0, 0, 0, 1]),
        ("variant<bool,int8_t>", &[1, 0, 0, 0, 0, 0, 0, 0, 0x80]),
    ];
    for (of, bytes) in rows {
        assert!(rt; is_read_and_written(rt.alloc(), of, bytes)?, "{of}");
    }
    Ok(())
}

#[test]
fn the_first_fault_is_named(rt: HostRuntime) {
    let rows: [(&str, &[u8], AuxFault); 9] = [
        ("Offset", &[1; 23], AuxFault::Short(16)),
        // a count far past the bytes
        (
            "sequence<uint64_t>",
            &[0, 0, 0, 0, 0, 0, 0, 0x80, 1, 2, 3, 4, 5, 6, 7, 8],
            AuxFault::Short(16),
        ),
        ("bool", &[2], AuxFault::BadBool(0)),
        ("bool", &[1, 0], AuxFault::Rest(1)),
        (
            "tuple<bool,variant<bool,bool>>",
            &[1, 2, 0, 0, 0, 0, 0, 0, 0],
            AuxFault::BadVariant(1),
        ),
        (
            "string",
            &[2, 0, 0, 0, 0, 0, 0, 0, 0x61, 0xC3],
            AuxFault::BadUtf8(8),
        ),
        (
            "set<uint8_t>",
            &[2, 0, 0, 0, 0, 0, 0, 0, 5, 5],
            AuxFault::Duplicate(9),
        ),
        // a key is refused before its value is read
        (
            "mapping<uint8_t,bool>",
            &[2, 0, 0, 0, 0, 0, 0, 0, 5, 1, 5, 2],
            AuxFault::Duplicate(10),
        ),
        (
            "mapping<uint8_t,bool>",
            &[2, 0, 0, 0, 0, 0, 0, 0, 5, 1, 5],
            AuxFault::Duplicate(10),
        ),
    ];
    for (of, bytes, fault) in rows {
        assert!(rt; is_refused(rt.alloc(), of, bytes, fault), "{of} {fault:?}");
    }
}

/// Two offsets that change places.
#[derive(Drop)]
struct Swap {
    first: u64,
    second: u64,
}

impl Places for Swap {
    ghost placed = { λ swap at. record { id = at.id; offset = cond (nat_eq at.offset swap.first) swap.second (cond (nat_eq at.offset swap.second) swap.first at.offset) } };

    fn place(&self, at: &Place) -> Place {
        let offset = if at.offset == self.first {
            self.second
        } else if at.offset == self.second {
            self.first
        } else {
            at.offset
        };
        Place { id: at.id, offset }
    }
}

/// The number 8, and three Places of these offsets, the first of them a key.
fn table(alloc: Global, key: u8, member: u8, chosen: u8) -> Result<Vec<u8>, AllocError> {
    let mut bytes = Vec::new(alloc);
    bytes.extend_from_slice(&[1, 0, 0, 0, 0, 0, 0, 0])?;
    put_place(&mut bytes, key)?;
    bytes.extend_from_slice(&[8, 0, 0, 0, 0, 0, 0, 0, 1, 0, 0, 0, 0, 0, 0, 0])?;
    put_place(&mut bytes, member)?;
    bytes.extend_from_slice(&[1, 0, 0, 0, 0, 0, 0, 0])?;
    put_place(&mut bytes, chosen)?;
    Ok(bytes)
}

fn put_place(bytes: &mut Vec<u8>, offset: u8) -> Result<(), AllocError> {
    bytes.extend_from_slice(&[3; 16])?;
    bytes.extend_from_slice(&[offset, 0, 0, 0, 0, 0, 0, 0])
}

/// The bytes of a table with two offsets swapped, if it has the type.
fn swapped(
    alloc: Global,
    of: &str,
    bytes: &[u8],
    swap: &Swap,
) -> Result<Option<Bytes>, AllocError> {
    let Ok(of) = parse_type(alloc, of) else {
        return Ok(None);
    };
    let Ok(mut value) = decode_aux(alloc, &of, bytes) else {
        return Ok(None);
    };
    map_places(&mut value, swap);
    Ok(Some(encode_aux(alloc, &of, &value)?))
}

#[test]
fn places_are_replaced(rt: HostRuntime) -> Result<(), Fail> {
    let alloc = rt.alloc();
    let of = "mapping<Offset,tuple<uint64_t,set<Offset>,variant<bool,Offset>>>";
    let swap = Swap {
        first: 8,
        second: 24,
    };
    let before = table(alloc, 8, 24, 40)?;
    let after = table(alloc, 24, 8, 40)?;
    let Some(found) = swapped(alloc, of, before.as_slice(), &swap)? else {
        panic!(rt; "no value");
    };
    assert!(rt; found.as_slice() == after.as_slice());
    Ok(())
}
