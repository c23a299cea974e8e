use crate::group::Group;
use example_files::{Row, written_out};
use gr_base::MemDesk;
use std::alloc::{AllocError, Global};

/// Whether the file that the group's job makes is there exactly where it says that it is done.
fn is_made(desk: &MemDesk, name: &str, said: &str) -> bool {
    name.is_empty() || desk.get(name).is_some() == said.starts_with("done")
}

/// Whether two files, whose names have a space between them, are the same.
fn are_same(desk: &MemDesk, names: &str) -> bool {
    match names.split_once(' ') {
        Some((left, right)) => desk.get(left).is_some() && desk.get(left) == desk.get(right),
        None => names.is_empty(),
    }
}

/// Whether bytes begin with those of hexadecimal digits, and have no others where `end` stands behind the digits.
fn begins(alloc: Global, bytes: &[u8], digits: &str) -> bool {
    let (digits, whole) = match digits.strip_suffix("end") {
        Some(digits) => (digits.trim(), true),
        None => (digits, false),
    };
    match hex::decode(alloc, digits) {
        Ok(wanted) if whole => bytes == wanted.as_slice(),
        Ok(wanted) => !wanted.is_empty() && bytes.starts_with(wanted.as_slice()),
        Err(_) => false,
    }
}

/// Whether bytes are those of lines, each of which ends with a semicolon.
fn are_lines(bytes: &[u8], lines: &str) -> bool {
    bytes.len() == lines.len()
        && bytes.iter().zip(lines.as_bytes()).all(|(byte, wanted)| byte == wanted
            || (*wanted == b';' && *byte == b'\n'))
}

/// Whether a file has bytes from a place on, where these are `FILE FROM BYTES`, or is lines, where they are
/// `FILE lines LINES`.
fn has_bytes(alloc: Global, desk: &MemDesk, wanted: &str) -> bool {
    let Some((name, rest)) = wanted.split_once(' ') else {
        return false;
    };
    if let Some(lines) = rest.strip_prefix("lines ") {
        return desk.get(name).is_some_and(|bytes| are_lines(bytes, lines));
    }
    let Some((from, digits)) = rest.split_once(' ') else {
        return false;
    };
    let Ok(from) = from.parse::<usize>() else {
        return false;
    };
    match desk.get(name) {
        Some(bytes) => match bytes.get(from..) {
            Some(bytes) => begins(alloc, bytes, digits),
            None => false,
        },
        None => false,
    }
}

/// What is wrong with what the program said and what it wrote.
pub fn wrong_with(
    alloc: Global,
    group: &Group,
    row: &Row,
    desk: &MemDesk,
    said: String,
) -> Result<Option<String>, AllocError> {
    if said.as_str() != written_out(alloc, row.expected)?.as_str() {
        return Ok(Some(said));
    }
    if !is_made(desk, group.made.as_str(), said.as_str()) {
        return Ok(Some(format!(in alloc; "{said}, and the file that it makes doesn't suit")?));
    }
    if !are_same(desk, group.same.as_str()) {
        return Ok(Some(format!(in alloc; "{said}, and the files aren't the same")?));
    }
    match row.more {
        Some(wanted) if !has_bytes(alloc, desk, wanted) => {
            Ok(Some(format!(in alloc; "{said}, and other bytes")?))
        }
        _ => Ok(None),
    }
}
