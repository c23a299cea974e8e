//! How labels and offsets are written.

ghost use Rattle.std.specs.Prelude.{◌≡◌, ◌++◌, true, IfOk, OnOk};
ghost use Rattle.std.specs.List.{flat_map, list_all};
ghost use Rattle.std.specs.String.{string_bytes};
ghost use Rattle.asm_lines.specs.Labels.{begins_bare, escaped, quoted};
ghost use Rattle.asm_spelling.specs.Labels.{is_bare, is_bare_byte, label_text, name_text, offset_text, ordinal_text};

use gr_base::Bytes;
use std::alloc::{AllocError, Global};

fn begins_bare(byte: u8) -> bool
    ensures { result ≡ begins_bare byte }
{
    byte.is_ascii_alphabetic() || byte == b'_' || byte == b'.' || byte == b'$'
}

fn is_bare_byte(byte: u8) -> bool
    ensures { result ≡ is_bare_byte byte }
{
    begins_bare(byte) || byte.is_ascii_digit()
}

fn are_bare(bytes: &[u8]) -> bool
    ensures { result ≡ list_all is_bare_byte bytes.now }
{
    bytes.iter().all(|byte| is_bare_byte(*byte))
}

fn is_bare(name: &[u8]) -> bool
    ensures { result ≡ is_bare name.now }
{
    match name.split_first() {
        None => false,
        Some((first, rest)) => begins_bare(*first) && are_bare(rest),
    }
}

/// A byte as it is written between quotes.
fn push_escaped(text: &mut Bytes, byte: u8) -> Result<(), AllocError>
    ensures { OnOk result (text.new ≡ text.old ++ escaped byte) }
{
    match byte {
        b'"' => text.extend_from_slice(b"\\\""),
        b'\\' => text.extend_from_slice(b"\\\\"),
        b'\n' => text.extend_from_slice(b"\\n"),
        _ => text.push(byte),
    }
}

/// A name between quotes.
pub fn quoted(alloc: Global, name: &[u8]) -> Result<Bytes, AllocError>
    ensures { IfOk result (λ text. text ≡ quoted name.now) }
{
    let mut text = Bytes::new(alloc);
    text.push(b'"')?;
    for byte in name {
        push_escaped(&mut text, *byte)?;
    }
    text.push(b'"')?;
    Ok(text)
}

/// A name, bare where it can be.
fn name_text(alloc: Global, name: &[u8]) -> Result<Bytes, AllocError>
    ensures { IfOk result (λ text. text ≡ name_text name.now) }
{
    if is_bare(name) {
        Bytes::from_slice(alloc, name)
    } else {
        quoted(alloc, name)
    }
}

/// Which of the symbols of a name is meant: from the second on.
fn ordinal_text(alloc: Global, ordinal: u64) -> Result<String, AllocError>
    ensures { IfOk result (λ text. string_bytes text ≡ ordinal_text ordinal) }
{
    if ordinal > 1 {
        format!(in alloc; "#{ordinal}")
    } else {
        Ok(String::new(alloc))
    }
}

/// The label of the k-th symbol of a name, counted from 1.
pub fn label_text(alloc: Global, name: &[u8], ordinal: u64) -> Result<Bytes, AllocError>
    ensures { IfOk result (λ text. text ≡ label_text name.now ordinal) }
{
    let mut text = name_text(alloc, name)?;
    let which = ordinal_text(alloc, ordinal)?;
    text.extend_from_slice(which.as_bytes())?;
    Ok(text)
}

/// How far from a label, left out for 0.
pub fn offset_text(alloc: Global, offset: i64) -> Result<String, AllocError>
    ensures { IfOk result (λ text. string_bytes text ≡ offset_text offset) }
{
    if offset < 0 {
        format!(in alloc; "{offset}")
    } else if offset > 0 {
        format!(in alloc; "+{offset}")
    } else {
        Ok(String::new(alloc))
    }
}
