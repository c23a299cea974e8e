use asm_read::{TextReason, read_number, read_uuid, split_words};
use gr_base::End;
use std::alloc::Global;

/// Whether a line has just these words.
fn has_words(alloc: Global, line: &str, words: &[&str]) -> bool {
    let Ok(found) = split_words(alloc, line.as_bytes()) else {
        return false;
    };
    if found.len() != words.len() {
        return false;
    }
    for (at, word) in found.as_slice().iter().enumerate() {
        if word.as_slice() != words[at].as_bytes() {
            return false;
        }
    }
    true
}

fn is_refused(alloc: Global, line: &[u8]) -> bool {
    match split_words(alloc, line) {
        Err(End::Fault(reason)) => reason == TextReason::Syntax,
        _ => false,
    }
}

#[test]
fn a_line_falls_into_words(rt: HostRuntime) {
    let alloc = rt.alloc();
    assert!(rt; has_words(alloc, "", &[]));
    assert!(rt; has_words(alloc, " \t\r", &[]));
    assert!(rt;
        has_words(
            alloc,
            "  stack 0x10000 0x1000\r",
            &["stack", "0x10000", "0x1000"]
        )
    );
    assert!(rt; has_words(alloc, "b end//it's \"open", &["b", "end"]));
    assert!(rt; has_words(alloc, "a \"x // y\"#2 /c", &["a", "\"x // y\"#2", "/c"]));
    assert!(rt; has_words(alloc, "\"a \\\" b\\\\\" c", &["\"a \\\" b\\\\\"", "c"]));
}

#[test]
fn an_open_quote_is_refused(rt: HostRuntime) {
    let alloc = rt.alloc();
    assert!(rt; is_refused(alloc, b"a \"b"));
    assert!(rt; is_refused(alloc, b"\"a\\\""));
    assert!(rt; is_refused(alloc, b"a // \xFF"));
}

#[test]
fn numbers_are_decimal_or_hexadecimal(rt: HostRuntime) {
    let rows: [(&str, Option<u64>); 12] = [
        ("0", Some(0)),
        ("007", Some(7)),
        ("18446744073709551615", Some(u64::MAX)),
        ("18446744073709551616", None),
        ("0x1fF", Some(511)),
        ("0xffffffffffffffff", Some(u64::MAX)),
        ("0x00000000000000000", None),
        ("0x", None),
        ("0X1", None),
        ("+1", None),
        ("-1", None),
        ("", None),
    ];
    for (word, number) in rows {
        assert!(rt; read_number(word.as_bytes()) == number, "{word}");
    }
}

#[test]
fn identifiers_are_hyphenated(rt: HostRuntime) {
    let small = read_uuid(b"0a0b0c0d-0e0f-1011-1213-141516171819");
    let large = read_uuid(b"0A0B0C0D-0E0F-1011-1213-141516171819");
    assert!(rt; small.is_some());
    assert!(rt; small == large);
    assert!(rt; read_uuid(b"{0a0b0c0d-0e0f-1011-1213-141516171819}").is_none());
    assert!(rt; read_uuid(b"0a0b0c0d0e0f10111213141516171819").is_none());
    assert!(rt; read_uuid(b"0a0b0c0d-0e0f-1011-1213-14151617181g").is_none());
}
